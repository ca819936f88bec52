// A written file is read back, and what the reader gives is compared with what was handed in.
use crate::buffer::{differing, fill, pattern};
use crate::groups::count;
use crate::shown::{
    Colour, byte_of, bytes_each, colour_at, cut, depth_of, entries_of, head_bytes, index_count,
    table_byte, tail_of,
};
use crate::starts::is_read_by_rows;
use arguments::words::part;
use leaves::encoder::EncodeSource;
use leaves::image::BmpPixelFormat;
use leaves::options::EncodeOptions;
use reader::read::{Reading, read};
use std::io;

// What the lent numbers are before a reading, and the seed of what the lent bytes are.
pub(crate) const UNREAD: u32 = 0xA5A5_5A5A;

const SEED: u32 = 77;

// Room for the numbers of every picture whose plane fits a record's space: 16-bit words have the most numbers,
// four for two bytes. Where they are lent they stand in place: a function that answers them has them copied.
pub(crate) const ROOM: usize = 32768;

fn number_at(numbers: &[u32], k: usize) -> u32 {
    numbers.get(k).copied().unwrap_or(0)
}

fn is_colour(cells: &[u32], k: usize, colour: Colour) -> bool {
    let red = number_at(cells, k) == colour.red;
    let green = number_at(cells, k.saturating_add(1)) == colour.green;
    let blue = number_at(cells, k.saturating_add(2)) == colour.blue;
    let alpha = number_at(cells, k.saturating_add(3)) == colour.alpha;
    red & green & blue & alpha
}

// Whether the numbers from k on are those of the cell at a place of the plane.
fn is_cell(
    format: BmpPixelFormat,
    options: EncodeOptions,
    plane: &[u8],
    at: usize,
    cells: &[u32],
    k: usize,
) -> bool {
    let indices = index_count(format);
    if indices != 0 {
        return number_at(cells, k) == cut(byte_of(plane, at), indices);
    }
    is_colour(cells, k, colour_at(format, options, plane, at))
}

// How many numbers a cell has.
fn numbers_each(format: BmpPixelFormat) -> usize {
    if index_count(format) != 0 {
        return 1;
    }
    4
}

// How many numbers a row has.
pub(crate) fn numbers_in(format: BmpPixelFormat, width: u32) -> usize {
    if index_count(format) != 0 {
        return width as usize;
    }
    4 * width as usize
}

// Whether the numbers from `from` on are those of the row at a place of the plane.
pub(crate) fn is_row(
    src: EncodeSource,
    options: EncodeOptions,
    plane: &[u8],
    start: usize,
    cells: &[u32],
    from: usize,
) -> bool {
    let format = src.format;
    let width = src.width;
    let mut at = start;
    let mut k = from;
    for _ in 0..width {
        if !is_cell(format, options, plane, at, cells, k) {
            return false;
        }
        at = at.saturating_add(bytes_each(format));
        k = k.saturating_add(numbers_each(format));
    }
    true
}

// Whether the numbers from a place on are as they were lent. All are looked at, which is vector code; a loop that may end
// at each of them is none.
pub(crate) fn is_unread(cells: &[u32], from: usize) -> bool {
    let rest = cells.get(from..).unwrap_or(&[]);
    rest.iter().fold(true, |all, cell| all & (*cell == UNREAD))
}

// Whether the numbers are those of the plane's cells, row by row from the top, and none behind them changed.
fn is_plane(src: EncodeSource, options: EncodeOptions, plane: &[u8], cells: &[u32]) -> bool {
    let height = src.height;
    let stride = src.stride;
    let format = src.format;
    let numbers = numbers_in(format, src.width);
    let mut at: usize = 0;
    let mut k: usize = 0;
    for _ in 0..height {
        if !is_row(src, options, plane, at, cells, k) {
            return false;
        }
        at = at.saturating_add(stride);
        k = k.saturating_add(numbers);
    }
    is_unread(cells, k)
}

// Whether the table is filled from the palette, and no byte behind its entries changed.
fn is_table(table: &[u8], palette: &[u8], entries: usize) -> bool {
    table.iter().enumerate().all(|(k, byte)| {
        let wanted = if k / 4 < entries {
            table_byte(palette, k)
        } else {
            pattern(SEED, k)
        };
        *byte == wanted
    })
}

// Whether the profile is the tail, at the file's end; an empty one has the place 0.
fn is_profile(file: &[u8], start: usize, bytes: usize, tail: &[u8]) -> bool {
    let end = start.saturating_add(bytes);
    let placed = if bytes == 0 {
        start == 0
    } else {
        end == file.len()
    };
    placed & (bytes == tail.len()) & (part(file, start, end) == tail)
}

fn is_size(src: EncodeSource, options: EncodeOptions, reading: Reading) -> bool {
    let size = (reading.width == src.width) & (reading.height == src.height);
    size & (reading.depth == depth_of(src, options))
}

// Whether a file is read back: size, depth, head, table, cells and profile are what was handed in, and each row alone is
// its cells.
pub(crate) fn is_read_back<'a>(
    src: EncodeSource,
    options: EncodeOptions,
    plane: &[u8],
    palette: &[u8],
    icc: &'a [u8],
    linked_icc: &'a [u8],
    file: &[u8],
) -> bool {
    let mut head_space = [0u8; 144];
    let head: &mut [u8] = &mut head_space;
    let mut table_space = [0u8; 1032];
    let table: &mut [u8] = &mut table_space;
    let mut cells_space = [UNREAD; ROOM];
    let cells: &mut [u32] = &mut cells_space;
    fill(head, SEED);
    fill(table, SEED);
    let Ok(reading) = read(file, head, table, cells) else {
        return false;
    };
    let size = is_size(src, options, reading);
    let filed = differing(head, SEED, 0, part(file, 0, head_bytes(src, options))) == 0;
    let format = src.format;
    let entries = entries_of(format, options.minimal_palette, palette.len());
    let coloured = is_table(table, palette, entries);
    let shown = is_plane(src, options, plane, cells);
    let tail = tail_of(src, options, icc, linked_icc);
    let profile = is_profile(file, reading.profile_at, reading.profile_bytes, tail);
    let by_rows = is_read_by_rows(src, options, plane, palette, icc, linked_icc, file);
    size & filed & coloured & shown & profile & by_rows
}

// Files written, and files read back.
pub(crate) fn count_file(files: &mut [u32], read_back: bool) {
    count(files, 0);
    if read_back {
        count(files, 1);
    }
}

pub(crate) fn files_line(rt: &impl Print, files: &[u32]) -> io::Result<()> {
    let read_back = number_at(files, 1);
    let written = number_at(files, 0);
    println!(rt; "read back {read_back} of {written} files, whole and row by row")
}
