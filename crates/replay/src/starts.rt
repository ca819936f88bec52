// A file is written once more beside a list of row starts, and each row is read alone from its start.
use crate::buffer::{differing, fill, space};
use crate::reading::{ROOM, UNREAD, is_row, is_unread, numbers_in};
use arguments::words::part;
use leaves::encoder::EncodeSource;
use leaves::error::Refusal;
use leaves::options::EncodeOptions;
use planner::encoder::{Encoded, encode_with_starts};
use reader::row::read_row;

// What the lent entries are before a call, and the seed of what the buffer's bytes are.
const UNSET: u64 = 0xA5A5_5A5A_A5A5_5A5A;

const SEED: u32 = 91;

// An entry for each row of every picture whose file fits the buffer, and some behind them.
const ENTRIES: usize = 16400;

fn start_at(starts: &[u64], s: usize) -> u64 {
    starts.get(s).copied().unwrap_or(0)
}

// Whether the entries from a place on are as they were lent, by the same kind of loop.
fn is_unset(starts: &[u64], from: usize) -> bool {
    let rest = starts.get(from..).unwrap_or(&[]);
    rest.iter().fold(true, |all, start| all & (*start == UNSET))
}

fn number_of(answer: Result<Encoded, Refusal>) -> u32 {
    match answer {
        Ok(_) => 0,
        Err(why) => why.number(),
    }
}

// Whether each row, read from its start, is that row of the plane, and no number behind it changed.
fn are_rows(
    src: EncodeSource,
    options: EncodeOptions,
    plane: &[u8],
    file: &[u8],
    starts: &[u64],
) -> bool {
    let mut cells_space = [UNREAD; ROOM];
    let cells: &mut [u32] = &mut cells_space;
    let height = src.height as usize;
    let stride = src.stride;
    let format = src.format;
    let numbers = numbers_in(format, src.width);
    let mut all = true;
    let mut at: usize = 0;
    for y in 0..height {
        let stored = if options.top_down { y } else { height - 1 - y };
        let read = read_row(file, start_at(starts, stored), cells);
        all = all & read.is_ok() & is_row(src, options, plane, at, cells, 0);
        at = at.saturating_add(stride);
    }
    all & is_unread(cells, numbers)
}

// Whether the call that fills a list writes the same file, from which each row is read alone, and leaves the other
// entries; and refuses an empty list, with nothing changed.
pub(crate) fn is_read_by_rows<'a>(
    src: EncodeSource,
    options: EncodeOptions,
    plane: &[u8],
    palette: &[u8],
    icc: &'a [u8],
    linked_icc: &'a [u8],
    file: &[u8],
) -> bool {
    let mut out_space = space();
    let out: &mut [u8] = &mut out_space;
    let mut starts_space = [UNSET; ENTRIES];
    let starts: &mut [u64] = &mut starts_space;
    let mut none_space = [0u64; 0];
    let none: &mut [u64] = &mut none_space;
    fill(out, SEED);
    let short = encode_with_starts(src, options, plane, palette, icc, linked_icc, out, 0, none);
    let kept = differing(out, SEED, 0, part(file, 0, 0)) == 0;
    let answer = encode_with_starts(
        src, options, plane, palette, icc, linked_icc, out, 0, starts,
    );
    let written = differing(out, SEED, 0, file) == 0;
    let rows = are_rows(src, options, plane, file, starts);
    let others = is_unset(starts, src.height as usize);
    (number_of(short) == 24) & kept & (number_of(answer) == 0) & written & rows & others
}
