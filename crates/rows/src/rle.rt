// The row coders and the stream writer (the Rust's encoder.rs, section on RLE).
ghost use Rattle.std.specs.Prelude.{◌≡◌, ◌+◌, ◌-◌, ◌*◌, ◌^◌, ◌<◌, ◌≤◌, [], ◌∷◌, ◌++◌, length, take, drop, if◌then◌else◌, slice_index};
ghost use Rattle.leaves.specs.declared.encoder.EncodedBmpFormat.TheVariants as written;
ghost use Rattle.leaves.specs.Put.{put};
ghost use Rattle.rows.specs.Packing.{packed_byte_of, packed};
ghost use Rattle.rows.specs.RleCodes.{is_rle4, depth_of, cells, block_at, data_bytes, bytes, size, codes, row_codes};
ghost use Rattle.rows.specs.Runs.{Continued};
ghost use Rattle.rows.specs.Starts.{noted};
ghost use Rattle.rows.specs.Stream.{stream_start, stream};

use crate::blocks::{
    Block, block_from, cell, data_bytes, first_differences, long_run, same_of, shown_block,
};
use crate::indices::pack_bytes;
use crate::pack::{copy_row, source_row};
use crate::starts::note_start;
use crate::windows::{flags_clear, flags_set, window_flags};
use leaves::encoder::EncodedBmpFormat;
use leaves::types::{BI_RLE4, BI_RLE8};

// Which of the two codings.
#[derive(Clone, Copy)]
pub enum Rle {
    Rle8,
    Rle4,
}

impl Rle {
    // The bits of a cell.
    pub(crate) fn bits(self) -> usize
        ensures { result ≡ depth_of (is_rle4 self) }
    {
        match self {
            Rle::Rle8 => 8,
            Rle::Rle4 => 4,
        }
    }

    // A cell's bits, set.
    pub(crate) fn mask(self) -> u8
        ensures { result ≡ 2 ^ depth_of (is_rle4 self) - 1 }
    {
        match self {
            Rle::Rle8 => 255,
            Rle::Rle4 => 15,
        }
    }

    // biCompression of a file with a stream.
    pub fn compression(self) -> u32
        ensures { result ≡ (if is_rle4 self then 2 else 1) }
    {
        match self {
            Rle::Rle8 => BI_RLE8,
            Rle::Rle4 => BI_RLE4,
        }
    }

    // What such a file was written as.
    pub fn format(self) -> EncodedBmpFormat
        ensures { result ≡ (if is_rle4 self then written.Rle4 else written.Rle8) }
    {
        match self {
            Rle::Rle8 => EncodedBmpFormat::Rle8,
            Rle::Rle4 => EncodedBmpFormat::Rle4,
        }
    }
}

// The byte of a pair: at depth 4 both indices, the first high.
fn pair_byte(v: usize, w: usize, rle: Rle) -> u8
    requires { (v < 2 ^ depth_of (is_rle4 rle)) × (w < 2 ^ depth_of (is_rle4 rle)) }
    ensures { result ≡ packed_byte_of (depth_of (is_rle4 rle)) (λ j. slice_index (v ∷ w ∷ []) j) 0 }
{
    match rle {
        Rle::Rle8 => v as u8,
        Rle::Rle4 => (v * 16 + w) as u8,
    }
}

// Writes the data of an absolute block, the `n` cells from `i` on, and returns the place after it.
fn put_data(row: &[u8], i: usize, n: usize, rle: Rle, buf: &mut [u8], at: usize) -> usize
    requires { (i + n ≤ length row.now) × (n ≤ 255) × (at + data_bytes (depth_of (is_rle4 rle)) n ≤ length buf.old) }
    ensures { (result ≡ at + data_bytes (depth_of (is_rle4 rle)) n)
        × (buf.new ≡ put buf.old at (packed (depth_of (is_rle4 rle)) (take n (drop i (cells (depth_of (is_rle4 rle)) row.now))) (data_bytes (depth_of (is_rle4 rle)) n))) }
{
    let len = data_bytes(n, rle);
    let data = &row[i..i + n];
    match rle {
        Rle::Rle8 => copy_row(data, len, buf, at),
        Rle::Rle4 => pack_bytes(data, 4, len, buf, at),
    }
    at + len
}

// Writes the block at `i` of a row, and returns the place after it.
fn put_block(row: &[u8], i: usize, rle: Rle, b: Block, buf: &mut [u8], at: usize) -> usize
    requires { (i < length row.now) × (b ≡ block_at (cells (depth_of (is_rle4 rle)) row.now) i) × (at + size (depth_of (is_rle4 rle)) b ≤ length buf.old) }
    ensures { (result ≡ at + size (depth_of (is_rle4 rle)) b)
        × (buf.new ≡ put buf.old at (bytes (depth_of (is_rle4 rle)) b (drop i (cells (depth_of (is_rle4 rle)) row.now)))) }
{
    match b {
        Block::Pair(n, v, w) => {
            buf[at] = n as u8;
            buf[at + 1] = pair_byte(v, w, rle);
            at + 2
        }
        Block::Absolute(n) => {
            buf[at] = 0;
            buf[at + 1] = n as u8;
            put_data(row, i, n, rle, buf, at + 2)
        }
    }
}

// Where the writing of a row's codes has come to: a place in the row, and one in the buffer.
#[derive(Clone, Copy)]
struct Reached {
    cell: usize,
    place: usize,
}

// Writes the blocks that a window of flags shows whole, from `at` on.
fn put_window(row: &[u8], at: usize, rle: Rle, buf: &mut [u8], place: usize) -> Reached
    requires in_bounds { (65 ≤ length row.now) × (at + 2 ≤ length row.now) }
    requires row_in_bounds { place + length (codes (depth_of (is_rle4 rle)) 0 (drop at (cells (depth_of (is_rle4 rle)) row.now))) ≤ length buf.old }
    ensures { Continued (depth_of (is_rle4 rle)) row.now at place buf.old result.cell result.place buf.new }
{
    let mut o = place;
    let mut i = at;
    let mut e = window_flags(row, at, rle);
    let mut known: usize = 64;
    loop {
        let same = flags_set(e);
        let lone = flags_clear(e);
        if known < same + lone + 2 {
            break;
        }
        let b = shown_block(row, i, rle, same, lone);
        o = put_block(row, i, rle, b, buf, o);
        let width = b.width();
        i += width;
        known -= width;
        e = e >> width as u32;
    }
    Reached { cell: i, place: o }
}

// The same where there is a window, and nothing where there is none.
fn put_shown(row: &[u8], at: usize, rle: Rle, buf: &mut [u8], place: usize) -> Reached
    requires at_in_bounds { at ≤ length row.now }
    requires row_in_bounds { place + length (codes (depth_of (is_rle4 rle)) 0 (drop at (cells (depth_of (is_rle4 rle)) row.now))) ≤ length buf.old }
    ensures { Continued (depth_of (is_rle4 rle)) row.now at place buf.old result.cell result.place buf.new }
{
    if 65 <= row.len() && at + 2 <= row.len() {
        return put_window(row, at, rle, buf, place);
    }
    Reached { cell: at, place }
}

// Writes a row's codes from `at` on, of indices cut to 8 or 4 bits, and returns the place after them. A run's cells are counted eight at
// a time as far as they fit, and 32 once eight were equal; the first eight differences serve the gathering too. After
// each block come those that a window of flags shows whole.
pub fn encode_rle_row(row: &[u8], rle: Rle, buf: &mut [u8], at: usize) -> usize
    requires { at + length (row_codes (depth_of (is_rle4 rle)) row.now) ≤ length buf.old }
    ensures { (result ≡ at + length (row_codes (depth_of (is_rle4 rle)) row.now))
        × (buf.new ≡ put buf.old at (row_codes (depth_of (is_rle4 rle)) row.now)) }
{
    let mut o = at;
    let mut i: usize = 0;
    while i < row.len() {
        let v = cell(row, i, rle);
        let most = (row.len() - i).min(255);
        let mut count: usize = 1;
        let mut x = first_differences(row, i, rle);
        let run = loop {
            if most - count > 7 {
                let same = same_of(x);
                if same < 8 {
                    break count + same;
                }
                count = long_run(row, i, rle, count + 8, most);
                x = first_differences(row, i + count - 1, rle);
            } else {
                if most <= count {
                    break count;
                }
                let w = cell(row, i + count, rle);
                if w != v {
                    break count;
                }
                count += 1;
            }
        };
        let b = block_from(row, i, rle, v, run, x);
        o = put_block(row, i, rle, b, buf, o);
        let reached = put_shown(row, i + b.width(), rle, buf, o);
        i = reached.cell;
        o = reached.place;
    }
    o
}

// Writes a row's codes and its end, and returns the place after it.
fn rle_row(row: &[u8], rle: Rle, last: bool, buf: &mut [u8], at: usize) -> usize
    requires { at + length (row_codes (depth_of (is_rle4 rle)) row.now) + 2 ≤ length buf.old }
    ensures { (result ≡ at + length (row_codes (depth_of (is_rle4 rle)) row.now) + 2)
        × (buf.new ≡ put buf.old at (row_codes (depth_of (is_rle4 rle)) row.now ++ (0 ∷ (if last then 1 else 0) ∷ []))) }
{
    let o = encode_rle_row(row, rle, buf, at);
    buf[o] = 0;
    buf[o + 1] = last as u8;
    o + 2
}

// Writes the stream from `at` on, and returns the place after it. Where each row's codes begin is noted, as a place in the
// file, whose first byte is at `origin`.
pub fn rle_into(
    rle: Rle,
    plane: &[u8],
    stride: usize,
    width: u32,
    height: u32,
    buf: &mut [u8],
    at: usize,
    starts: &mut [u64],
    origin: usize,
) -> usize
    requires width_le_stride { width ≤ stride }
    requires height_in_bounds { stride * height ≤ length plane.now }
    requires stride_in_bounds { at + length (stream (depth_of (is_rle4 rle)) width height plane.now stride) ≤ length buf.old }
    requires origin_le_at { origin ≤ at }
    ensures answer { (result ≡ at + length (stream (depth_of (is_rle4 rle)) width height plane.now stride))
        × (buf.new ≡ put buf.old at (stream (depth_of (is_rle4 rle)) width height plane.now stride)) }
    ensures starts_after { starts.new ≡ noted (λ s. at - origin + stream_start (depth_of (is_rle4 rle)) width height plane.now stride s) starts.old height }
{
    let w = width as usize;
    let h = height as usize;
    let mut o = at;
    for y in 0..h {
        note_start(starts, y, o - origin);
        let row = source_row(plane, stride, w, h, false, y);
        o = rle_row(row, rle, y + 1 == h, buf, o);
    }
    o
}
