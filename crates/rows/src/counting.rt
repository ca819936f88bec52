// How many bytes a row's codes and a stream take, without writing them (the Rust's rle_len in encoder.rs, section on
// RLE).
ghost use Rattle.std.specs.Prelude.{◌≡◌, ◌+◌, ◌*◌, ◌^◌, ◌<◌, ◌≤◌, ◌⊎◌, length, drop, bit_xor, slice_index};
ghost use Rattle.rows.specs.RleCodes.{is_rle4, depth_of, cells, run_length, row_codes};
ghost use Rattle.rows.specs.Stream.{stream, Counted};
ghost use Rattle.rows.specs.Windows.{Coding};
ghost use Rattle.rows.specs.Words.{word};

use crate::blocks::{block_from, cell, differences, first_differences, long_run, same_of};
use crate::pack::source_row;
use crate::rle::Rle;
use crate::windows::{charge_below, whole_runs, window_flags};

// How many cells equal to `v` start at `at`, the first of which is one and where `x` are the differences, at
// most 255: eight at a time as far as they fit, and 32 once eight were equal.
fn run_length(row: &[u8], at: usize, rle: Rle, v: usize, x: u64) -> usize
    requires { (at < length row.now)
        × (v ≡ slice_index (cells (depth_of (is_rle4 rle)) row.now) at)
        × (at + 8 < length row.now → x ≡ word (λ i. bit_xor (slice_index (cells (depth_of (is_rle4 rle)) row.now) i) (slice_index (cells (depth_of (is_rle4 rle)) row.now) (i + 1))) at 8) }
    ensures { result ≡ run_length (slice_index (cells (depth_of (is_rle4 rle)) row.now) at) (drop (at + 1) (cells (depth_of (is_rle4 rle)) row.now)) }
{
    let most = (row.len() - at).min(255);
    let mut count: usize = 1;
    if most > 8 {
        let same = same_of(x);
        if same < 8 {
            return 1 + same;
        }
        count = long_run(row, at, rle, 9, most);
    }
    loop {
        if most - count > 7 {
            let same = same_of(differences(row, at + count - 1, rle));
            if same < 8 {
                break count + same;
            }
            count += 8;
        } else {
            if most <= count {
                break count;
            }
            let w = cell(row, at + count, rle);
            if w != v {
                break count;
            }
            count += 1;
        }
    }
}

// Whole blocks: their bytes, and how many cells they code.
#[derive(Clone, Copy)]
struct Coded {
    bytes: usize,
    cells: usize,
}

// The block that starts at `at`.
fn one_block(row: &[u8], at: usize, rle: Rle) -> Coded
    requires { at < length row.now }
    ensures { Coding (depth_of (is_rle4 rle)) row.now at result.cells result.bytes }
{
    let v = cell(row, at, rle);
    let x = first_differences(row, at, rle);
    let run = run_length(row, at, rle, v, x);
    let b = block_from(row, at, rle, v, run, x);
    let bytes = b.len(rle);
    let cells = b.width();
    Coded { bytes, cells }
}

// The blocks of depth 8 up to the end of the last run that ends in a window; no cells where none does.
fn window_blocks(row: &[u8], at: usize) -> Coded
    requires { (65 ≤ length row.now) × (at + 2 ≤ length row.now) }
    ensures { (result.cells ≡ 0) ⊎ Coding 8 row.now at result.cells result.bytes }
{
    let e = window_flags(row, at, Rle::Rle8);
    let cells = whole_runs(e);
    if cells == 0 {
        return Coded { bytes: 0, cells: 0 };
    }
    let bytes = charge_below(e, cells);
    Coded { bytes, cells }
}

// Blocks from `at` on: at depth 8 a window's, if it has any, and otherwise one.
fn blocks_at(row: &[u8], at: usize, rle: Rle) -> Coded
    requires { at < length row.now }
    ensures { Coding (depth_of (is_rle4 rle)) row.now at result.cells result.bytes }
{
    if matches!(rle, Rle::Rle8) && 65 <= row.len() && at + 2 <= row.len() {
        let blocks = window_blocks(row, at);
        if blocks.cells != 0 {
            return blocks;
        }
    }
    one_block(row, at, rle)
}

// How many bytes a row's codes take. A turn goes on by the cells that its blocks code.
fn rle_row_len(row: &[u8], rle: Rle) -> usize
    ensures { (result ≡ length (row_codes (depth_of (is_rle4 rle)) row.now)) × (result ≤ 2 * length row.now) }
{
    let mut len: usize = 0;
    let mut at: usize = 0;
    while at < row.len() {
        let blocks = blocks_at(row, at, rle);
        len += blocks.bytes;
        at += blocks.cells;
    }
    len
}

// The stream's length where it is under the budget, counted row by row in stored order as far as the budget.
pub fn rle_len(
    rle: Rle,
    plane: &[u8],
    stride: usize,
    width: u32,
    height: u32,
    budget: usize,
) -> Option<usize>
    requires width_le_stride { width ≤ stride }
    requires height_in_bounds { stride * height ≤ length plane.now }
    requires budget_bound { budget ≤ 2 ^ 32 }
    ensures { Counted (length (stream (depth_of (is_rle4 rle)) width height plane.now stride)) budget result }
{
    let w = width as usize;
    let h = height as usize;
    let mut len = 0;
    for y in 0..h {
        if budget <= len {
            return None;
        }
        len += rle_row_len(source_row(plane, stride, w, h, false, y), rle) + 2;
    }
    if len < budget { Some(len) } else { None }
}
