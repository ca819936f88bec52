// Cells of 24 and 32 bits from pixels with red first: red and blue exchanged, many pixels at a time (the loops of
// the Rust's pack_bgr24 and pack_bgra32 in encoder.rs, section on pixel packing).
ghost use Rattle.std.specs.Prelude.{◌≡◌, ◌+◌, ◌*◌, ◌%◌, ◌≤◌, true, false, [], ◌∷◌, ◌++◌, length, if◌then◌else◌, nat_eq};
ghost use Rattle.leaves.specs.Bytes.{le32};
ghost use Rattle.leaves.specs.Lists.{tab, cat};
ghost use Rattle.leaves.specs.Put.{put};
ghost use Rattle.rows.specs.StoredRows.{cell24, cell32, exchanged_byte};

use crate::words::place_mask;
use leaves::buffer::put_number;

// The word of pixel x of 4 bytes.
pub(crate) fn pixel_word(src: &[u8], x: usize) -> u32
    requires { x * 4 + 4 ≤ length src.now }
    ensures { le32 result ≡ cell32 true src.now x }
{
    let s = x * 4;
    u32::from_le_bytes([src[s], src[s + 1], src[s + 2], src[s + 3]])
}

// A pixel's word with red and blue exchanged. From the word it is a few masks, which vector code has;
// from the bytes it would be moves of single bytes.
fn exchanged(word: u32) -> u32
    ensures { le32 result ≡ cell32 false (le32 word) 0 }
{
    word / 65536 % 256 + word / 256 % 256 * 256 + word % 256 * 65536 + word / 16777216 * 16777216
}

// The 32-bit cells of a row with red first.
pub(crate) fn exchange32(src: &[u8], width: u32, dst: &mut [u8], at: usize)
    requires src_len { length src.now ≡ width * 4 }
    requires width_in_bounds { at + width * 4 ≤ length dst.old }
    ensures { dst.new ≡ put dst.old at (cat (cell32 false src.now) width) }
{
    for x in 0..width as usize {
        put_number(dst, at + x * 4, exchanged(pixel_word(src, x)));
    }
}

// The word of the stored cell of pixel x of a row with red first: its fourth byte is zero.
fn cell_word24(src: &[u8], x: usize) -> u32
    requires { x * 3 + 3 ≤ length src.now }
    ensures { le32 result ≡ cell24 false src.now x ++ (0 ∷ []) }
{
    let s = x * 3;
    u32::from_le_bytes([src[s + 2], src[s + 1], src[s], 0])
}

// The stored cell of pixel x of a row with red first.
fn exchange_cell(src: &[u8], x: usize, dst: &mut [u8], at: usize)
    requires x_in_bounds { x * 3 + 3 ≤ length src.now }
    requires at_in_bounds { at + 3 ≤ length dst.old }
    ensures { dst.new ≡ put dst.old at (cell24 false src.now x) }
{
    let s = x * 3;
    dst[at] = src[s + 2];
    dst[at + 1] = src[s + 1];
    dst[at + 2] = src[s];
}

// Byte j of cells with red first: of the bytes two before it, at its place and two after it the one that
// belongs there. All three are read and masked, as vector code needs it; a branch would read one.
fn exchanged_byte(before: u8, here: u8, after: u8, j: usize) -> u8
    ensures { result ≡ (if nat_eq (j % 3) 0 then after else (if nat_eq (j % 3) 1 then here else before)) }
{
    let place = j % 3;
    (after & place_mask(place, 0)) | (here & place_mask(place, 1)) | (before & place_mask(place, 2))
}

// Sixteen cells of a row with red first, from byte i on. By way of a local array it is vector code.
fn exchange_sixteen(src: &[u8], i: usize, dst: &mut [u8], at: usize)
    requires cell_start { i % 3 ≡ 0 }
    requires le_i { 2 ≤ i }
    requires i_in_bounds { i + 50 ≤ length src.now }
    requires at_in_bounds { at + 48 ≤ length dst.old }
    ensures { dst.new ≡ put dst.old at (tab (λ k. exchanged_byte src.now (i + k)) 48) }
{
    let mut bytes = [0u8; 48];
    for j in 0..48 {
        let s = i + j;
        bytes[j] = exchanged_byte(src[s - 2], src[s], src[s + 2], j);
    }
    dst[at..at + 48].copy_from_slice(&bytes);
}

// The first cells of a row with red first, and how many they are: one alone, then sixteen a turn. A turn
// reads two bytes before its cells and two after them.
fn exchange_most(src: &[u8], width: u32, dst: &mut [u8], at: usize) -> usize
    requires src_len { length src.now ≡ width * 3 }
    requires width_in_bounds { at + width * 3 ≤ length dst.old }
    ensures { (result ≤ width) × (dst.new ≡ put dst.old at (cat (cell24 false src.now) result)) }
{
    let w = width as usize;
    if w == 0 {
        return 0;
    }
    exchange_cell(src, 0, dst, at);
    let turns = w.saturating_sub(2) / 16;
    for turn in 0..turns {
        let i = (1 + turn * 16) * 3;
        exchange_sixteen(src, i, dst, at + i);
    }
    1 + turns * 16
}

// The 24-bit cells of a row with red first. Those after the blocks of sixteen are stored as words, whose
// fourth byte the next cell overwrites; only the last is stored by bytes.
pub(crate) fn exchange24(src: &[u8], width: u32, dst: &mut [u8], at: usize)
    requires src_len { length src.now ≡ width * 3 }
    requires width_in_bounds { at + width * 3 ≤ length dst.old }
    ensures { dst.new ≡ put dst.old at (cat (cell24 false src.now) width) }
{
    let w = width as usize;
    let done = exchange_most(src, width, dst, at);
    if done == w {
        return;
    }
    let last = w - 1;
    for x in done..last {
        put_number(dst, at + x * 3, cell_word24(src, x));
    }
    exchange_cell(src, last, dst, at + last * 3);
}
