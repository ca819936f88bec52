// What the codes of a window of cells take, from a word of flags: of each of 64 cells whether the next one is
// equal.
ghost use Rattle.std.specs.Prelude.{◌≡◌, ℕ, ◌+◌, ◌-◌, ◌*◌, ◌^◌, ◌<◌, ◌≤◌, Bool, true, false, not, ◌⊎◌, length, ◌==◌, slice_index};
ghost use Rattle.rows.specs.RleCodes.{is_rle4, depth_of, cells};
ghost use Rattle.rows.specs.Words.{word, leading};
ghost use Rattle.rows.specs.Windows.{bit, from_bits, total, twins, flags_at, charged};

use crate::rle::Rle;
use crate::words::le64;

fn same(a: u8, b: u8) -> u8
    ensures { result ≡ bit (a == b) }
{
    if a == b { 1 } else { 0 }
}

// The bits of a word whose eight bytes are each 0 or 1.
fn low_bits(w: u64) -> u64
    ensures { (f : ℕ → Bool) → w ≡ word (λ k. bit (f k)) 0 8 → result ≡ from_bits f 8 }
{
    let x = w | w >> 7;
    let y = x | x >> 14;
    (y | y >> 28) & 255
}

// The bits of eight bytes from i on that are each 0 or 1.
fn flag_byte(flags: &[u8], i: usize) -> u64
    requires { i + 8 ≤ length flags.now }
    ensures { (f : ℕ → Bool) → ((k : ℕ) → k < 8 → slice_index flags.now (i + k) ≡ bit (f k)) → result ≡ from_bits f 8 }
{
    low_bits(le64(flags, i))
}

// The bits of 64 bytes that are each 0 or 1.
fn packed(flags: &[u8]) -> u64
    requires { length flags.now ≡ 64 }
    ensures { (f : ℕ → Bool) → ((k : ℕ) → k < 64 → slice_index flags.now k ≡ bit (f k)) → result ≡ from_bits f 64 }
{
    flag_byte(flags, 0)
        | flag_byte(flags, 8) << 8
        | flag_byte(flags, 16) << 16
        | flag_byte(flags, 24) << 24
        | flag_byte(flags, 32) << 32
        | flag_byte(flags, 40) << 40
        | flag_byte(flags, 48) << 48
        | flag_byte(flags, 56) << 56
}

// Bit k says that the cell k after `at` is equal to the one after it, where an index has the bits of a mask. The loop
// over bytes is vector code.
fn masked_flags(row: &[u8], at: usize, mask: u8) -> u64
    requires { at + 65 ≤ length row.now }
    ensures { (d : ℕ) → mask ≡ 2 ^ d - 1 → result ≡ from_bits (twins (cells d row.now) at) 64 }
{
    let mut flags = [0u8; 64];
    for k in 0..64 {
        let j = at + k;
        flags[k] = same(row[j] & mask, row[j + 1] & mask);
    }
    packed(&flags)
}

// The flags of the window at `at`: near the row's end from the row's last 65 cells.
pub(crate) fn window_flags(row: &[u8], at: usize, rle: Rle) -> u64
    requires { (65 ≤ length row.now) × (at + 2 ≤ length row.now) }
    ensures { result ≡ from_bits (flags_at (cells (depth_of (is_rle4 rle)) row.now) at) 64 }
{
    let mask = rle.mask();
    let last = row.len() - 65;
    if at <= last {
        return masked_flags(row, at, mask);
    }
    masked_flags(row, last, mask) >> (at - last) as u32
}

// Bit k says that two bytes are charged to the cell k of the window. The sum carries through the stretches of
// lone cells that start at even places, and through no other.
fn charges(e: u64) -> u64
    ensures { (f : ℕ → Bool) → e ≡ from_bits f 64 → result ≡ from_bits (charged f) 64 }
{
    let d = e << 1;
    let l = !(e | d);
    let s = l & !(l << 1);
    let q = l & !l.wrapping_add(s & 0x5555555555555555);
    e & !d | l & (q ^ 0xAAAAAAAAAAAAAAAA) | l & s << 1
}

// The bytes charged to the first v cells of the window.
pub(crate) fn charge_below(e: u64, v: usize) -> usize
    requires { (1 ≤ v) × (v ≤ 64) }
    ensures { ((f : ℕ → Bool) → e ≡ from_bits f 64 → result ≡ 2 * total (charged f) v) × (result ≤ 128) }
{
    2 * ((charges(e) & (0xFFFF_FFFF_FFFF_FFFF >> (64 - v) as u32)).count_ones() as usize)
}

// Past the last cell of the window's last run that ends in it; 0 where none does.
pub(crate) fn whole_runs(e: u64) -> usize
    ensures { ((f : ℕ → Bool) → e ≡ from_bits f 64 → (result ≡ 0) ⊎ ((2 ≤ result) × (result ≤ 64) × (f (result - 2) ≡ true) × (f (result - 1) ≡ false))) × (result ≤ 64) × ((f : ℕ → Bool) → e ≡ from_bits f 64 → (k : ℕ) → result ≤ k + 1 → k < 63 → f k ≡ true → f (k + 1) ≡ true) }
{
    let ends = e << 1 & !e;
    64 - ends.leading_zeros() as usize
}

// How many flags are set, up to the first that is not.
pub(crate) fn flags_set(e: u64) -> usize
    ensures { ((f : ℕ → Bool) → e ≡ from_bits f 64 → result ≡ leading f 0 64) × (result ≤ 64) }
{
    (!e).trailing_zeros() as usize
}

// How many are not set, up to the first that is.
pub(crate) fn flags_clear(e: u64) -> usize
    ensures { ((f : ℕ → Bool) → e ≡ from_bits f 64 → result ≡ leading (λ k. not (f k)) 0 64) × (result ≤ 64) }
{
    e.trailing_zeros() as usize
}
