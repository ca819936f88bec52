// What a block of codes is, and which one stands at a place of a row (the Rust's row coders in encoder.rs, section
// on RLE).
ghost use Rattle.std.specs.Prelude.{◌≡◌, ℕ, ◌+◌, ◌-◌, ◌^◌, ◌<◌, ◌≤◌, min, Bool, not, List, length, drop, ◌==◌, bit_xor, nat_eq, slice_index};
ghost use Rattle.rows.specs.RleCodes.{is_rle4, depth_of, cells, run_length, gather_length, block_at, width, data_bytes, size};
ghost use Rattle.rows.specs.Runs.{Running};
ghost use Rattle.rows.specs.Words.{word, leading};

use crate::rle::Rle;
use crate::words::le64;

// What the coder takes from a place.
#[derive(Clone, Copy)]
pub enum Block {
    // A count and two indices; at depth 8 the second is not written.
    Pair(usize, usize, usize),
    // So many indices as they are.
    Absolute(usize),
}

// The cell at k: an index, cut to the depth. By a mask, which does not change in a scan, it has no branch.
pub(crate) fn cell(row: &[u8], k: usize, rle: Rle) -> usize
    requires { k < length row.now }
    ensures { (result ≡ slice_index (cells (depth_of (is_rle4 rle)) row.now) k) × (result < 2 ^ depth_of (is_rle4 rle)) }
{
    (row[k] & rle.mask()) as usize
}

// Eight bytes, each 0 where a cell from `k` on is the same as the next.
pub(crate) fn differences(row: &[u8], k: usize, rle: Rle) -> u64
    requires { k + 8 < length row.now }
    ensures { result ≡ word (λ i. bit_xor (slice_index (cells (depth_of (is_rle4 rle)) row.now) i) (slice_index (cells (depth_of (is_rle4 rle)) row.now) (i + 1))) k 8 }
{
    (le64(row, k) ^ le64(row, k + 1)) & (rle.mask() as u64 * 0x0101010101010101)
}

// The same, or 0 where the row has not so many cells left.
pub(crate) fn first_differences(row: &[u8], k: usize, rle: Rle) -> u64
    requires { k < length row.now }
    ensures { k + 8 < length row.now → result ≡ word (λ i. bit_xor (slice_index (cells (depth_of (is_rle4 rle)) row.now) i) (slice_index (cells (depth_of (is_rle4 rle)) row.now) (i + 1))) k 8 }
{
    if row.len() - k > 8 {
        return differences(row, k, rle);
    }
    0
}

// How many of the eight cells after a place are the same as the one before, up to the first that is not,
// where `x` are the differences there.
pub(crate) fn same_of(x: u64) -> usize
    ensures { (four : Bool) (row : List ℕ) (k : ℕ) → x ≡ word (λ i. bit_xor (slice_index (cells (depth_of four) row) i) (slice_index (cells (depth_of four) row) (i + 1))) k 8 → result ≡ leading (λ i. nat_eq (slice_index (cells (depth_of four) row) (i + 1)) (slice_index (cells (depth_of four) row) i)) k 8 }
{
    (x.trailing_zeros() / 8) as usize
}

// How many of the eight cells from a place on are not the same as the next, up to the first that is, where
// `x` are the differences there: adding 127 to a byte's low seven bits sets its high bit where one of them
// is set.
fn lone_of(x: u64) -> usize
    ensures { (four : Bool) (row : List ℕ) (k : ℕ) → x ≡ word (λ i. bit_xor (slice_index (cells (depth_of four) row) i) (slice_index (cells (depth_of four) row) (i + 1))) k 8 → result ≡ leading (λ i. not (slice_index (cells (depth_of four) row) i == slice_index (cells (depth_of four) row) (i + 1))) k 8 }
{
    let low = 0x7F7F7F7F7F7F7F7F;
    let high = 0x8080808080808080;
    let zeros = (((x & low) + low) | x) & high ^ high;
    (zeros.trailing_zeros() / 8) as usize
}

// How far the run at `at`, of which `count` cells are known, goes on by 32 cells a step, of the `most` that it may have.
pub(crate) fn long_run(row: &[u8], at: usize, rle: Rle, count: usize, most: usize) -> usize
    requires { (Running (depth_of (is_rle4 rle)) row.now at count) × (most ≡ min (length row.now - at) 255) × (count ≤ most) }
    ensures { (Running (depth_of (is_rle4 rle)) row.now at result) × (count ≤ result) × (result ≤ most) }
{
    let mut n = count;
    while most - n > 31 {
        let k = at + n - 1;
        let x = differences(row, k, rle)
            | differences(row, k + 8, rle)
            | differences(row, k + 16, rle)
            | differences(row, k + 24, rle);
        if x != 0 {
            return n;
        }
        n += 32;
    }
    n
}

// How many indices are gathered from `at` on, where no run starts and `x` are the differences: eight at a
// time as far as they fit.
fn gather(row: &[u8], at: usize, rle: Rle, x: u64) -> usize
    requires { (at < length row.now)
        × (run_length (slice_index (cells (depth_of (is_rle4 rle)) row.now) at) (drop (at + 1) (cells (depth_of (is_rle4 rle)) row.now)) ≤ 1)
        × (at + 8 < length row.now → x ≡ word (λ i. bit_xor (slice_index (cells (depth_of (is_rle4 rle)) row.now) i) (slice_index (cells (depth_of (is_rle4 rle)) row.now) (i + 1))) at 8) }
    ensures { result ≡ gather_length (drop (at + 1) (cells (depth_of (is_rle4 rle)) row.now)) }
{
    let most = (row.len() - at).min(255);
    let mut count: usize = 1;
    if most > 8 {
        let lone = lone_of(x);
        if lone < 8 {
            return lone;
        }
        count = 8;
    }
    loop {
        if most - count > 8 {
            let lone = lone_of(differences(row, at + count, rle));
            if lone < 8 {
                break count + lone;
            }
            count += 8;
        } else {
            if most <= count {
                break count;
            }
            let next = at + count;
            if next + 1 < row.len() {
                let x = cell(row, next, rle);
                let y = cell(row, next + 1, rle);
                if x == y {
                    break count;
                }
            }
            count += 1;
        }
    }
}

// The block at `at`, where a run of `run` cells `v` starts; if it is one cell, `x` are the differences.
pub(crate) fn block_from(row: &[u8], at: usize, rle: Rle, v: usize, run: usize, x: u64) -> Block
    requires { (at < length row.now)
        × (v ≡ slice_index (cells (depth_of (is_rle4 rle)) row.now) at)
        × (run ≡ run_length (slice_index (cells (depth_of (is_rle4 rle)) row.now) at) (drop (at + 1) (cells (depth_of (is_rle4 rle)) row.now)))
        × (run ≤ 1 → at + 8 < length row.now → x ≡ word (λ i. bit_xor (slice_index (cells (depth_of (is_rle4 rle)) row.now) i) (slice_index (cells (depth_of (is_rle4 rle)) row.now) (i + 1))) at 8) }
    ensures { result ≡ block_at (cells (depth_of (is_rle4 rle)) row.now) at }
{
    if 1 < run {
        return Block::Pair(run, v, v);
    }
    let gathered = gather(row, at, rle, x);
    if 2 < gathered {
        return Block::Absolute(gathered);
    }
    let w = if at + 1 < row.len() {
        cell(row, at + 1, rle)
    } else {
        0
    };
    Block::Pair(1, v, w)
}

// The block at `at`, where the next `same` cells are equal to the first or, if none is, `lone` cells are
// gathered.
pub(crate) fn shown_block(row: &[u8], at: usize, rle: Rle, same: usize, lone: usize) -> Block
    requires { (at + 1 < length row.now)
        × (same ≤ 64)
        × (same + 1 ≡ run_length (slice_index (cells (depth_of (is_rle4 rle)) row.now) at) (drop (at + 1) (cells (depth_of (is_rle4 rle)) row.now)))
        × (same ≡ 0 → lone ≡ gather_length (drop (at + 1) (cells (depth_of (is_rle4 rle)) row.now))) }
    ensures { (result ≡ block_at (cells (depth_of (is_rle4 rle)) row.now) at) × (width result ≤ same + lone + 1) }
{
    let v = cell(row, at, rle);
    if 0 < same {
        let run = same + 1;
        return Block::Pair(run, v, v);
    }
    if 2 < lone {
        return Block::Absolute(lone);
    }
    let w = cell(row, at + 1, rle);
    Block::Pair(1, v, w)
}

// Data bytes of an absolute block of n cells.
pub(crate) fn data_bytes(n: usize, rle: Rle) -> usize
    requires { n ≤ 255 }
    ensures { (result ≡ data_bytes (depth_of (is_rle4 rle)) n) × (result ≤ 256) }
{
    (n * rle.bits() + 15) / 16 * 2
}

impl Block {
    // How many cells it codes.
    pub(crate) fn width(self) -> usize
        ensures { result ≡ width self }
    {
        match self {
            Block::Pair(n, _, _) => n,
            Block::Absolute(n) => n,
        }
    }

    // How many bytes it is written in.
    pub(crate) fn len(self, rle: Rle) -> usize
        requires { width self ≤ 255 }
        ensures { result ≡ size (depth_of (is_rle4 rle)) self }
    {
        match self {
            Block::Pair(_, _, _) => 2,
            Block::Absolute(n) => 2 + data_bytes(n, rle),
        }
    }
}
