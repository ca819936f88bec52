// Rows from the top: those that are stored as they are, and those of a stream.
ghost use Rattle.std.specs.Prelude.{◌≡◌, false, cond, ◌⊎◌, ◌+◌, ◌-◌, ◌*◌, ◌^◌, ◌≤◌, ◌<◌, leb, length, drop};
ghost use Rattle.leaves.specs.Lists.{cat};
ghost use Rattle.leaves.specs.Put.{put};
ghost use Rattle.leaves.specs.Sizes.{row_stride};
ghost use Rattle.format.specs.Decode.{decode};
ghost use Rattle.format.specs.Readers.{shown_height, cell_word};
ghost use Rattle.cells.specs.Quads.{quad_under, ChannelsOk};
ghost use Rattle.reader.specs.Channels.{five_bits, channels_for};
ghost use Rattle.reader.specs.Fields.{fields_in};
ghost use Rattle.reader.specs.Numbers.{numbers_each};
ghost use Rattle.cells.specs.Streams.{is_refused, cells_in};
ghost use Rattle.reader.specs.Rows.{numbers_in, plain_numbers, stream_numbers, WrittenKind};

use crate::checks::alpha_mask;
use crate::fields::{HeadFields, dword_at};
use cells::colours::{Channels, channel_of, put_bytes, put_words};
use cells::indices::put_indices;
use cells::stream::fill_row;
use leaves::types::{BI_RGB, row_stride};

// The channels of a 16-bit cell without masks in the file: five bits each.
fn five_bits() -> Channels
    ensures { (result ≡ five_bits) × ChannelsOk result }
{
    let red = channel_of(0x7C00);
    let green = channel_of(0x03E0);
    let blue = channel_of(0x001F);
    let alpha = channel_of(0);
    Channels {
        red,
        green,
        blue,
        alpha,
    }
}

// The channels of a cell of 16 or 32 bits.
pub(crate) fn channels_of(file: &[u8], compression: u32) -> Channels
    ensures { (result ≡ channels_for file.now compression) × ChannelsOk result }
{
    if compression == BI_RGB {
        return five_bits();
    }
    let red = channel_of(dword_at(file, 54));
    let green = channel_of(dword_at(file, 58));
    let blue = channel_of(dword_at(file, 62));
    let alpha = channel_of(alpha_mask(file, compression));
    Channels {
        red,
        green,
        blue,
        alpha,
    }
}

// n cells of 16 bits. With channels that are known the loop is compiled for itself.
fn put_words16(
    file: &[u8],
    from: usize,
    compression: u32,
    channels: Channels,
    n: usize,
    cells: &mut [u32],
    to: usize,
)
    requires channels_read { channels ≡ channels_for file.now compression }
    requires channels_ok { ChannelsOk channels }
    requires n_in_bounds { from + n * 2 ≤ length file.now }
    requires cells_in_bounds { to + n * 4 ≤ length cells.old }
    ensures { cells.new ≡ put cells.old to (cat (λ x. quad_under channels (cell_word 16 (drop from file.now) x)) n) }
{
    if compression == BI_RGB {
        put_words(file, from, 16, five_bits(), n, cells, to);
        return;
    }
    put_words(file, from, 16, channels, n, cells, to);
}

// The numbers of a cell.
pub(crate) fn numbers_each(depth: u16) -> usize
    ensures { result ≡ cond (leb depth 8) 1 4 }
{
    if depth <= 8 {
        return 1;
    }
    4
}

// The stored row that begins at a place.
pub(crate) fn put_row(
    file: &[u8],
    from: usize,
    t: HeadFields,
    channels: Channels,
    cells: &mut [u32],
    to: usize,
)
    requires written_kind { WrittenKind (fields_in t) }
    requires channels_read { channels ≡ channels_for file.now t.compression }
    requires channels_ok { ChannelsOk channels }
    requires depth_in_bounds { from + row_stride t.width t.depth ≤ length file.now }
    requires t_in_bounds { to + t.width * numbers_each (fields_in t) ≤ length cells.old }
    ensures { cells.new ≡ put cells.old to (numbers_in file.now (fields_in t) (drop from file.now)) }
{
    let depth = t.depth;
    let width = t.width as usize;
    if depth <= 8 {
        put_indices(file, from, depth, width, cells, to);
        return;
    }
    if (t.compression == BI_RGB) & (depth != 16) {
        put_bytes(file, from, depth as usize / 8, width, cells, to);
        return;
    }
    // With a size that is known each loop is compiled for itself.
    if depth == 16 {
        put_words16(file, from, t.compression, channels, width, cells, to);
        return;
    }
    put_words(file, from, 32, channels, width, cells, to);
}

// The stored row that is shown as row y.
fn stored_at(top_first: bool, height: usize, y: usize) -> usize
    requires { y < height }
    ensures { (result ≡ cond top_first y (height - 1 - y)) × (result < height) }
{
    if top_first {
        return y;
    }
    height - 1 - y
}

// All rows of a file without a stream.
pub(crate) fn fill_rows(file: &[u8], t: HeadFields, cells: &mut [u32])
    requires written_kind { WrittenKind (fields_in t) }
    requires depth_in_bounds { t.offset + shown_height (fields_in t) * row_stride t.width t.depth ≤ length file.now }
    requires t_in_bounds { shown_height (fields_in t) * (t.width * numbers_each (fields_in t)) ≤ length cells.old }
    ensures { cells.new ≡ put cells.old 0 (plain_numbers file.now (fields_in t)) }
{
    let height = t.shown_height() as usize;
    let stride = row_stride(t.width, t.depth);
    let numbers = t.width as usize * numbers_each(t.depth);
    let channels = channels_of(file, t.compression);
    let top = t.top_first();
    for y in 0..height {
        let stored = stored_at(top, height, y);
        put_row(
            file,
            t.offset as usize + stored * stride,
            t,
            channels,
            cells,
            y * numbers,
        );
    }
}

// All rows of a stream that was tried: the first that is stored is the last from the top.
pub(crate) fn fill_stream(
    file: &[u8],
    offset: usize,
    depth: u16,
    width: usize,
    height: usize,
    cells: &mut [u32],
)
    requires offset_bound { offset < 2 ^ 32 }
    requires known_depth { (depth ≡ 4) ⊎ (depth ≡ 8) }
    requires width_bound { width < 2 ^ 31 }
    requires height_nonzero { 0 < height }
    requires not_refused { is_refused (decode depth width (drop offset file.now) (height - 1)) ≡ false }
    requires width_in_bounds { height * width ≤ length cells.old }
    ensures { cells.new ≡ put cells.old 0 (stream_numbers width height (cells_in (decode depth width (drop offset file.now) (height - 1)))) }
{
    let mut above = height;
    let mut at = offset;
    while above > 0 {
        above -= 1;
        let end = fill_row(file, at, depth, width, cells, above * width);
        at = end + 2;
    }
}
