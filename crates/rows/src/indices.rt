// Rows of indices, packed to 1, 2, 4 or 8 bits (the Rust's pack_indices in encoder.rs, section on pixel packing).
ghost use Rattle.std.specs.Prelude.{◌≡◌, ◌+◌, ◌*◌, ◌%◌, ◌^◌, ◌<◌, ◌≤◌, true, length, drop, slice_index};
ghost use Rattle.leaves.specs.Lists.{tab};
ghost use Rattle.leaves.specs.Put.{put};
ghost use Rattle.leaves.specs.Sizes.{row_stride, has_table};
ghost use Rattle.rows.specs.Packing.{packed_byte_of, packed, FoldedDepth};

use crate::folds::{folded, put_lanes};
use crate::pack::copy_row;
use leaves::types::row_stride;

// Byte i of a row of indices, packed to bpp bits: 0 where it starts after the last cell.
fn packed_byte(src: &[u8], bpp: u16, i: usize) -> u8
    requires table_depth { has_table bpp ≡ true }
    requires i_bound { i < 2 ^ 40 }
    ensures { result ≡ packed_byte_of bpp (λ x. slice_index src.now x) i }
{
    let per: usize = 8 / bpp as usize;
    if i * per >= src.len() {
        return 0;
    }
    let base: u32 = 1u32 << bpp as u32;
    let mut byte: u32 = 0;
    for j in 0..per {
        let x = i * per + j;
        let index = if x < src.len() { src[x] as u32 } else { 0 };
        byte = byte * base + index % base;
    }
    byte as u8
}

// The bytes of a row after the first `from`, of n in all, one by one.
fn pack_tail(src: &[u8], bpp: u16, from: usize, n: usize, dst: &mut [u8], at: usize)
    requires table_depth { has_table bpp ≡ true }
    requires n_bound { n < 2 ^ 40 }
    requires n_in_bounds { at + n ≤ length dst.old }
    ensures { dst.new ≡ put dst.old (at + from) (drop from (packed bpp src.now n)) }
{
    for i in from..n {
        dst[at + i] = packed_byte(src, bpp, i);
    }
}

// Two indices of 4 bits, the first one high.
fn nibbles(high: u8, low: u8) -> u8
    ensures { result ≡ high % 16 * 16 + low % 16 }
{
    high % 16 * 16 + low % 16
}

// Sixteen bytes of indices packed to 4 bits, from byte i on. By way of a local array it is vector code.
fn pack_sixteen(src: &[u8], i: usize, dst: &mut [u8], at: usize)
    requires i_in_bounds { i * 2 + 32 ≤ length src.now }
    requires at_in_bounds { at + 16 ≤ length dst.old }
    ensures { dst.new ≡ put dst.old at (tab (λ k. packed_byte_of 4 (λ x. slice_index src.now x) (i + k)) 16) }
{
    let mut bytes = [0u8; 16];
    for j in 0..16 {
        let x = (i + j) * 2;
        bytes[j] = nibbles(src[x], src[x + 1]);
    }
    dst[at..at + 16].copy_from_slice(&bytes);
}

// The first n bytes of indices packed to 4 bits.
fn pack_nibbles(src: &[u8], n: usize, dst: &mut [u8], at: usize)
    requires n_bound { n < 2 ^ 40 }
    requires n_in_bounds { at + n ≤ length dst.old }
    ensures { dst.new ≡ put dst.old at (packed 4 src.now n) }
{
    let turns = (src.len() / 2).min(n) / 16;
    for turn in 0..turns {
        let i = turn * 16;
        pack_sixteen(src, i, dst, at + i);
    }
    pack_tail(src, 4, turns * 16, n, dst, at);
}

// The first n bytes of indices packed to 1 or 2 bits.
fn pack_folded<const BPP: u16>(src: &[u8], n: usize, dst: &mut [u8], at: usize)
    requires folded_depth { FoldedDepth BPP }
    requires n_bound { n < 2 ^ 40 }
    requires n_in_bounds { at + n ≤ length dst.old }
    ensures { dst.new ≡ put dst.old at (packed BPP src.now n) }
{
    let size = BPP as usize;
    let turns = (src.len() / 8).min(n / size);
    for turn in 0..turns {
        put_lanes::<BPP>(folded::<BPP>(src, turn * 8), dst, at + turn * size);
    }
    pack_tail(src, BPP, turns * size, n, dst, at);
}

// The first n bytes of indices packed to bpp bits.
pub(crate) fn pack_bytes(src: &[u8], bpp: u16, n: usize, dst: &mut [u8], at: usize)
    requires table_depth { has_table bpp ≡ true }
    requires n_bound { n < 2 ^ 40 }
    requires n_in_bounds { at + n ≤ length dst.old }
    ensures { dst.new ≡ put dst.old at (packed bpp src.now n) }
{
    match bpp {
        4 => pack_nibbles(src, n, dst, at),
        2 => pack_folded::<2>(src, n, dst, at),
        1 => pack_folded::<1>(src, n, dst, at),
        _ => pack_tail(src, bpp, 0, n, dst, at),
    }
}

// A row of indices, packed to bpp bits.
pub(crate) fn pack_indices(src: &[u8], bpp: u16, dst: &mut [u8], at: usize)
    requires table_depth { has_table bpp ≡ true }
    requires src_len_bound { length src.now < 2 ^ 32 }
    requires bpp_in_bounds { at + row_stride (length src.now) bpp ≤ length dst.old }
    ensures { dst.new ≡ put dst.old at (packed bpp src.now (row_stride (length src.now) bpp)) }
{
    let w = src.len();
    let stride = row_stride(w as u32, bpp);
    if bpp == 8 {
        copy_row(src, stride, dst, at);
    } else {
        pack_bytes(src, bpp, stride, dst, at);
    }
}
