// Indices as numbers, from bytes that hold one or more and from pairs.
ghost use Rattle.std.specs.Prelude.{◌≡◌, true, cond, ◌⊎◌, ◌+◌, ◌*◌, ◌/◌, ◌%◌, ◌^◌, ◌≤◌, ◌<◌, eqb, length, get_or, drop};
ghost use Rattle.leaves.specs.Lists.{tab};
ghost use Rattle.leaves.specs.Put.{put};
ghost use Rattle.leaves.specs.Sizes.{has_table};
ghost use Rattle.format.specs.Decode.{cell_at, pair_cell};
ghost use Rattle.cells.specs.Streams.{PutWithin};

pub(crate) fn byte(file: &[u8], k: usize) -> u32
    requires { k < length file.now }
    ensures { (result ≡ get_or file.now k 0) × (result < 256) }
{
    file[k] as u32
}

// n bytes, each as a number.
pub(crate) fn widen(file: &[u8], from: usize, n: usize, cells: &mut [u32], to: usize)
    requires n_in_bounds { from + n ≤ length file.now }
    requires cells_in_bounds { to + n ≤ length cells.old }
    ensures { cells.new ≡ put cells.old to (tab (cell_at 8 (drop from file.now)) n) }
{
    for x in 0..n {
        cells[to + x] = byte(file, from + x);
    }
}

// Index x of those packed from a place on, the first in the high bits of its byte.
fn packed_index(file: &[u8], from: usize, depth: u16, x: usize) -> u32
    requires table_depth { has_table depth ≡ true }
    requires x_bound { x < 2 ^ 40 }
    requires depth_in_bounds { from + x * depth / 8 < length file.now }
    ensures { result ≡ cell_at depth (drop from file.now) x }
{
    let bit = x * depth as usize;
    (byte(file, from + bit / 8) >> (8 - depth as u32 - (bit % 8) as u32))
        & ((1u32 << depth as u32) - 1)
}

// n indices one by one.
fn each_index(file: &[u8], from: usize, depth: u16, n: usize, cells: &mut [u32], to: usize)
    requires table_depth { has_table depth ≡ true }
    requires n_bound { n < 2 ^ 40 }
    requires depth_in_bounds { from + (n * depth + 7) / 8 ≤ length file.now }
    requires n_in_bounds { to + n ≤ length cells.old }
    ensures { cells.new ≡ put cells.old to (tab (cell_at depth (drop from file.now)) n) }
{
    for x in 0..n {
        cells[to + x] = packed_index(file, from, depth, x);
    }
}

// n indices byte by byte: with a depth that is known the indices of a byte are a few stores without a loop.
fn unpack(file: &[u8], from: usize, depth: u16, n: usize, cells: &mut [u32], to: usize)
    requires table_depth { has_table depth ≡ true }
    requires n_bound { n < 2 ^ 40 }
    requires depth_in_bounds { from + (n * depth + 7) / 8 ≤ length file.now }
    requires n_in_bounds { to + n ≤ length cells.old }
    ensures { cells.new ≡ put cells.old to (tab (cell_at depth (drop from file.now)) n) }
{
    let in_byte = 8 / depth as usize;
    let mut x = 0;
    let mut p = from;
    while n - x >= in_byte {
        each_index(file, p, depth, in_byte, cells, to + x);
        x += in_byte;
        p += 1;
    }
    each_index(file, p, depth, n - x, cells, to + x);
}

// n indices, packed from a place on.
pub fn put_indices(file: &[u8], from: usize, depth: u16, n: usize, cells: &mut [u32], to: usize)
    requires table_depth { has_table depth ≡ true }
    requires n_bound { n < 2 ^ 40 }
    requires depth_in_bounds { from + (n * depth + 7) / 8 ≤ length file.now }
    requires n_in_bounds { to + n ≤ length cells.old }
    ensures { cells.new ≡ put cells.old to (tab (cell_at depth (drop from file.now)) n) }
{
    if depth == 8 {
        widen(file, from, n, cells, to);
        return;
    }
    // With a depth that is known each loop is compiled for itself.
    if depth == 4 {
        unpack(file, from, 4, n, cells, to);
        return;
    }
    if depth == 2 {
        unpack(file, from, 2, n, cells, to);
        return;
    }
    unpack(file, from, 1, n, cells, to);
}

fn first_if(first: bool, high: u32, low: u32) -> u32
    ensures { result ≡ cond first high low }
{
    if first { high } else { low }
}

// Two indices in turn.
fn alternate(high: u32, low: u32, n: usize, cells: &mut [u32], to: usize)
    requires { to + n ≤ length cells.old }
    ensures { cells.new ≡ put cells.old to (tab (λ j. cond (eqb (j % 2) 0) high low) n) }
{
    for j in 0..n {
        cells[to + j] = first_if(j % 2 == 0, high, low);
    }
}

// One number n times. With `fill` long runs took 11 % longer to read.
fn repeat(value: u32, n: usize, cells: &mut [u32], to: usize)
    requires { to + n ≤ length cells.old }
    ensures { cells.new ≡ put cells.old to (tab (λ j. value) n) }
{
    for j in 0..n {
        cells[to + j] = value;
    }
}

// The cells of a pair, at depth 4 the value's halves in turn, in a row that may have room for more: of that room the
// cells behind the pair's may change too. Eight cells of a short run are stored at once, since a loop that ends after a
// few cells is one that the processor cannot foresee.
pub(crate) fn put_pair(depth: u16, value: u8, n: usize, room: usize, cells: &mut [u32], to: usize)
    requires n_le_room { n ≤ room }
    requires room_in_bounds { to + room ≤ length cells.old }
    ensures { PutWithin cells.old to (tab (pair_cell depth value) n) room cells.new }
{
    let v = value as u32;
    if depth == 4 {
        alternate(v / 16, v % 16, n, cells, to);
        return;
    }
    if depth == 8 && 8 <= room {
        repeat(v, 8, cells, to);
        if n <= 8 {
            return;
        }
        repeat(v, n - 8, cells, to + 8);
        return;
    }
    repeat(v, n, cells, to);
}
