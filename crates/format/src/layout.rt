// What source and options decide of a file (the Rust's Head and Rows, less what they borrow).
use leaves::encoder::EncodedBmpFormat;
use rows::pack::RowPack;
use rows::rle::Rle;

// The header family of a file. At most one of the first three is asked for in an accepted call.
#[derive(Clone, Copy)]
pub enum Mode {
    Masked,
    Calibrated,
    Profiled,
    Plain,
}

#[derive(Clone, Copy)]
pub struct Layout {
    pub mode: Mode,
    // biSize.
    pub header_size: u32,
    // biBitCount.
    pub bit_count: u16,
    // Entries of the colour table.
    pub entries: usize,
    // The stream that is tried before the rows are stored.
    pub coding: Option<Rle>,
    // How rows are stored, with biCompression and the format answered for them.
    pub pack: RowPack,
    pub compression: u32,
    pub format: EncodedBmpFormat,
}
