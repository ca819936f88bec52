// Streams: tried whole, and then filled in.
ghost use Rattle.std.specs.Prelude.{◌≡◌, true, false, Some, IfSome, ◌⊎◌, ◌+◌, ◌-◌, ◌*◌, ◌/◌, ◌^◌, ◌≤◌, ◌<◌, length, drop};
ghost use Rattle.leaves.specs.Put.{put};
ghost use Rattle.format.specs.Decode.{read_code, read_row, decode};
ghost use Rattle.cells.specs.Streams.{is_refused, cells_in, bytes_in, code_of, row_end, marks_end, PutWithin};

use crate::indices::{put_indices, put_pair};

// How many cells a code fills, and its bytes.
#[derive(Clone, Copy)]
pub struct Code {
    pub cells: usize,
    pub bytes: usize,
}

// The bytes of n packed indices.
fn data_bytes(n: usize, depth: u16) -> usize
    requires n_bound { n < 256 }
    requires depth_bound { depth ≤ 8 }
    ensures { (result ≡ (n * depth + 7) / 8) × (result < 256) }
{
    (n * depth as usize + 7) / 8
}

// The code at a place, in a row with room for some cells. A code that no room is left for, a row's early end, the
// stream's end, a delta and missing bytes are none.
fn code_at(file: &[u8], at: usize, depth: u16, room: usize) -> Option<Code>
    requires room_nonzero { 0 < room }
    requires depth_bound { depth ≤ 8 }
    ensures code { result ≡ code_of (read_code depth room (drop at file.now)) }
    ensures bounds { IfSome result (λ code. (0 < code.cells) × (code.cells ≤ room) × (code.bytes ≤ 258)) }
{
    let rest = file.len().saturating_sub(at);
    if rest < 2 {
        return None;
    }
    let first = file[at] as usize;
    let second = file[at + 1] as usize;
    if first != 0 {
        if first > room {
            return None;
        }
        return Some(Code {
            cells: first,
            bytes: 2,
        });
    }
    if second < 3 {
        return None;
    }
    if second > room {
        return None;
    }
    let data = data_bytes(second, depth);
    if rest - 2 < data {
        return None;
    }
    Some(Code {
        cells: second,
        bytes: 2 + data + data % 2,
    })
}

// The place behind the codes of the row that begins at `start`.
fn row_end(file: &[u8], start: usize, depth: u16, width: usize) -> Option<usize>
    requires start_bound { start < 2 ^ 63 }
    requires depth_bound { depth ≤ 8 }
    requires width_bound { width < 2 ^ 31 }
    ensures { result ≡ row_end start (read_row depth width (drop start file.now)) }
{
    let mut at = start;
    let mut room = width;
    while room > 0 {
        let code = code_at(file, at, depth, room)?;
        room -= code.cells;
        at += code.bytes;
    }
    Some(at)
}

// Whether the end of a row stands at a place.
fn marks_end(file: &[u8], at: usize) -> bool
    ensures { result ≡ marks_end (drop at file.now) }
{
    matches!(file.get(at..), Some([0, 0, ..]))
}

// 19, of a stream.
pub fn stream_fails(file: &[u8], offset: usize, depth: u16, width: usize, height: usize) -> bool
    requires offset_bound { offset < 2 ^ 63 }
    requires depth_bound { depth ≤ 8 }
    requires width_bound { width < 2 ^ 31 }
    requires height_nonzero { 0 < height }
    ensures { result ≡ is_refused (decode depth width (drop offset file.now) (height - 1)) }
{
    let mut at = offset;
    for below in 1..height {
        let Some(end) = row_end(file, at, depth, width) else {
            return true;
        };
        if !marks_end(file, end) {
            return true;
        }
        at = end + 2;
    }
    row_end(file, at, depth, width).is_none()
}

// Fills in the cells of a code that is not refused, in a row that may have room for more: behind a short run's cells,
// those in the row may change too.
#[tactic(auto, using(crate::proofs::Codes::good_there))]
fn fill_code(file: &[u8], at: usize, depth: u16, room: usize, cells: &mut [u32], to: usize) -> Code
    requires room_nonzero { 0 < room }
    requires known_depth { (depth ≡ 4) ⊎ (depth ≡ 8) }
    requires not_refused { is_refused (read_code depth room (drop at file.now)) ≡ false }
    requires room_in_bounds { to + room ≤ length cells.old }
    ensures answer { (Some result ≡ code_of (read_code depth room (drop at file.now))) × (result.bytes ≤ 258) }
    ensures put_within { PutWithin cells.old to (cells_in (read_code depth room (drop at file.now))) room cells.new }
{
    let first = file[at] as usize;
    if first != 0 {
        put_pair(depth, file[at + 1], first, room, cells, to);
        return Code {
            cells: first,
            bytes: 2,
        };
    }
    let n = file[at + 1] as usize;
    put_indices(file, at + 2, depth, n, cells, to);
    let data = data_bytes(n, depth);
    Code {
        cells: n,
        bytes: 2 + data + data % 2,
    }
}

// Fills in a row that is not refused, and answers where its codes end.
pub fn fill_row(
    file: &[u8],
    start: usize,
    depth: u16,
    width: usize,
    cells: &mut [u32],
    to: usize,
) -> usize
    requires start_bound { start < 2 ^ 63 }
    requires known_depth { (depth ≡ 4) ⊎ (depth ≡ 8) }
    requires width_bound { width < 2 ^ 31 }
    requires not_refused { is_refused (read_row depth width (drop start file.now)) ≡ false }
    requires width_in_bounds { to + width ≤ length cells.old }
    ensures answer { (result ≡ start + bytes_in (read_row depth width (drop start file.now))) × (result ≤ start + 258 * width) }
    ensures cells_after { cells.new ≡ put cells.old to (cells_in (read_row depth width (drop start file.now))) }
{
    let mut at = start;
    let mut x = 0;
    while x < width {
        let code = fill_code(file, at, depth, width - x, cells, to + x);
        x += code.cells;
        at += code.bytes;
    }
    at
}
