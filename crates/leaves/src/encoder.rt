// What is encoded, what it is written as, and the colour table's counts (the Rust's encoder.rs).
ghost use Rattle.std.specs.Prelude.{◌≡◌};
ghost use Rattle.leaves.specs.Formats.{plain_token, format_number, written_names};
ghost use Rattle.leaves.specs.Sizes.{palette_entry_count, written_palette_entries, clr_used_of};
ghost use Rattle.leaves.specs.Texts.{joined};

use crate::image::BmpPixelFormat;

// What a file was written as.
#[derive(Clone, Copy)]
pub enum EncodedBmpFormat {
    Rgb32 = 0,
    Rgb24 = 1,
    Rgb16Rgb = 2,
    Rgb16Bitfields = 3,
    Indexed8 = 4,
    Indexed4 = 5,
    Indexed2 = 6,
    Rle8 = 7,
    Rle4 = 8,
    Indexed1 = 9,
    Bitfields = 10,
    AlphaBitfields = 11,
}

impl EncodedBmpFormat {
    // Its number in an answer that is numbers, and its place among the names.
    pub fn number(self) -> u32
        ensures { result ≡ format_number self }
    {
        self as u32
    }
}

// The names of all of them by number, with commas between; `arguments::formats::written_name` takes one out.
pub fn written_names() -> [u8; 106]
    ensures { result ≡ joined 44 written_names }
{
    *b"Rgb32,Rgb24,Rgb16Rgb,Rgb16Bitfields,Indexed8,Indexed4,Indexed2,Rle8,Rle4,Indexed1,\
        Bitfields,AlphaBitfields"
}

// The picture, but for the lent slices, which stand beside it: the plane, and the palette and the
// profiles, of which a flag here says whether they are given.
#[derive(Clone, Copy)]
pub struct EncodeSource {
    pub format: BmpPixelFormat,
    pub width: u32,
    pub height: u32,
    // Bytes from one row of the plane to the next.
    pub stride: usize,
    pub has_palette: bool,
    pub has_icc: bool,
    pub has_linked_icc: bool,
}

// The masks of Rgb565 in a 108- or 124-byte header: red, green, blue, alpha.
pub const RGB565_MASKS_V5: [u32; 4] = [0xF800, 0x07E0, 0x001F, 0];

// The masks of 32-bit cells in a 108- or 124-byte header.
pub const RGBA32_ALPHA_MASK_V4_V5: [u32; 4] = [0, 0, 0, 0xFF00_0000];

// The format of a file without masks and without a stream.
pub fn plain_token(format: BmpPixelFormat) -> EncodedBmpFormat
    ensures { result ≡ plain_token format }
{
    match format {
        BmpPixelFormat::Rgba => EncodedBmpFormat::Rgb32,
        BmpPixelFormat::Rgb24 => EncodedBmpFormat::Rgb24,
        BmpPixelFormat::Bgra => EncodedBmpFormat::Rgb32,
        BmpPixelFormat::Bgr24 => EncodedBmpFormat::Rgb24,
        BmpPixelFormat::Rgb555 => EncodedBmpFormat::Rgb16Rgb,
        BmpPixelFormat::Rgb565 => EncodedBmpFormat::Rgb16Bitfields,
        BmpPixelFormat::Pal8 => EncodedBmpFormat::Indexed8,
        BmpPixelFormat::Indexed4 => EncodedBmpFormat::Indexed4,
        BmpPixelFormat::Indexed2 => EncodedBmpFormat::Indexed2,
        BmpPixelFormat::Indexed1 => EncodedBmpFormat::Indexed1,
    }
}

// Entries of a full colour table; 0 at a depth that has none.
#[tactic(auto, unfolding(crate::specs::Sizes::palette_entry_count))]
fn palette_entry_count(bpp: u16) -> usize
    ensures { result ≡ palette_entry_count bpp }
{
    match bpp {
        1 => 2,
        2 => 4,
        4 => 16,
        8 => 256,
        _ => 0,
    }
}

// Entries of the colour table that is written for a palette of `entries`.
#[tactic(auto, unfolding(crate::specs::Sizes::written_palette_entries))]
pub fn written_palette_entries(bpp: u16, entries: usize, minimal_palette: bool) -> usize
    ensures { result ≡ written_palette_entries bpp entries minimal_palette }
{
    let full = palette_entry_count(bpp);
    if minimal_palette {
        entries.max(1).min(full)
    } else {
        full
    }
}

// biClrUsed for a table of `entries`.
#[tactic(auto, using(crate::proofs::TableCounts::entries_le), unfolding(crate::specs::Sizes::clr_used_of))]
pub fn clr_used(bpp: u16, entries: usize) -> u32
    ensures { result ≡ clr_used_of bpp entries }
{
    if entries < palette_entry_count(bpp) {
        return entries as u32;
    }
    0
}
