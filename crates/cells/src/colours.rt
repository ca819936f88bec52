// Colours as numbers: red, green, blue, alpha.
ghost use Rattle.std.specs.Prelude.{◌≡◌, cond, [], ◌∷◌, ◌⊎◌, ◌+◌, ◌*◌, ◌/◌, ◌≤◌, ◌<◌, eqb, ltb, length, get_or, drop};
ghost use Rattle.leaves.specs.Lists.{cat};
ghost use Rattle.leaves.specs.Put.{put};
ghost use Rattle.format.specs.Readers.{word_at, dword_at, cell_word};
ghost use Rattle.cells.specs.Quads.{bytes_quad, number_place, channel_at, value_under, quad_under, ChannelsOk};

use crate::indices::{byte, widen};
use rows::words::place_mask;

// Red, green, blue and alpha of a cell.
fn put_quad(cells: &mut [u32], at: usize, quad: [u32; 4])
    requires { at + 4 ≤ length cells.old }
    ensures { cells.new ≡ put cells.old at quad }
{
    cells[at] = quad[0];
    cells[at + 1] = quad[1];
    cells[at + 2] = quad[2];
    cells[at + 3] = quad[3];
}

// n cells of 3 or 4 bytes, blue, green, red, one by one.
fn each_cell(file: &[u8], from: usize, size: usize, n: usize, cells: &mut [u32], to: usize)
    requires le_size { 3 ≤ size }
    requires size_in_bounds { from + n * size ≤ length file.now }
    requires n_in_bounds { to + n * 4 ≤ length cells.old }
    ensures { cells.new ≡ put cells.old to (cat (bytes_quad file.now from size) n) }
{
    for x in 0..n {
        let p = from + x * size;
        let quad = [byte(file, p + 2), byte(file, p + 1), byte(file, p), 0];
        put_quad(cells, to + 4 * x, quad);
    }
}

// Of eight bytes the one at a place, and 0 behind them. All are read and masked, as vector code needs it; a branch would
// read one.
fn byte_of_eight(file: &[u8], at: usize, place: usize) -> u8
    requires { at + 8 ≤ length file.now }
    ensures { result ≡ cond (ltb place 8) (get_or file.now (at + place) 0) 0 }
{
    (file[at] & place_mask(place, 0))
        | (file[at + 1] & place_mask(place, 1))
        | (file[at + 2] & place_mask(place, 2))
        | (file[at + 3] & place_mask(place, 3))
        | (file[at + 4] & place_mask(place, 4))
        | (file[at + 5] & place_mask(place, 5))
        | (file[at + 6] & place_mask(place, 6))
        | (file[at + 7] & place_mask(place, 7))
}

// Where the byte of number k of four cells stands, counted from five bytes before byte k. Alpha, which has no byte, is
// behind eight bytes; a branch for it would not be vector code.
fn place_of(size: usize, k: usize) -> usize
    requires known_size { (size ≡ 3) ⊎ (size ≡ 4) }
    requires k_bound { k < 16 }
    ensures { result ≡ number_place size k }
{
    k / 4 * size + 7 + k % 4 / 3 * 16 - k % 4 - k
}

// The same of a size that is one of two: from a literal it is a constant for each k, which vector code needs.
fn known_place(size: usize, k: usize) -> usize
    requires known_size { (size ≡ 3) ⊎ (size ≡ 4) }
    requires k_bound { k < 16 }
    ensures { result ≡ number_place size k }
{
    if size == 3 {
        return place_of(3, k);
    }
    place_of(4, k)
}

// Four cells of 3 or 4 bytes. By way of a local array it is vector code, which reads some bytes before and behind them.
fn four_cells(file: &[u8], from: usize, size: usize, cells: &mut [u32], to: usize)
    requires known_size { (size ≡ 3) ⊎ (size ≡ 4) }
    requires le_from { 5 ≤ from }
    requires from_in_bounds { from + 18 ≤ length file.now }
    requires to_in_bounds { to + 16 ≤ length cells.old }
    ensures { cells.new ≡ put cells.old to (cat (bytes_quad file.now from size) 4) }
{
    let mut numbers = [0u8; 16];
    for k in 0..16 {
        numbers[k] = byte_of_eight(file, from + k - 5, known_place(size, k));
    }
    widen(&numbers, 0, 16, cells, to);
}

// n cells of 3 or 4 bytes, four a turn but for the first two and the last ones: around those there may be no bytes to read.
pub fn put_bytes(file: &[u8], from: usize, size: usize, n: usize, cells: &mut [u32], to: usize)
    requires known_size { (size ≡ 3) ⊎ (size ≡ 4) }
    requires size_in_bounds { from + n * size ≤ length file.now }
    requires n_in_bounds { to + n * 4 ≤ length cells.old }
    ensures { cells.new ≡ put cells.old to (cat (bytes_quad file.now from size) n) }
{
    if n < 2 {
        each_cell(file, from, size, n, cells, to);
        return;
    }
    each_cell(file, from, size, 2, cells, to);
    let mut x = 2;
    let mut p = from + 2 * size;
    let mut q = to + 8;
    while n - x > 5 {
        four_cells(file, p, size, cells, q);
        x += 4;
        p += 4 * size;
        q += 16;
    }
    each_cell(file, p, size, n - x, cells, q);
}

// A channel of a word: the bits under its mask, moved down by `shift`.
#[derive(Clone, Copy)]
pub struct Channel {
    pub mask: u32,
    pub shift: u32,
}

pub fn channel_of(mask: u32) -> Channel
    ensures { (result ≡ channel_at mask) × (result.shift < 32) }
{
    if mask == 0 {
        return Channel { mask: 0, shift: 0 };
    }
    Channel {
        mask,
        shift: u32::trailing_zeros(mask),
    }
}

// Red, green, blue, alpha.
#[derive(Clone, Copy)]
pub struct Channels {
    pub red: Channel,
    pub green: Channel,
    pub blue: Channel,
    pub alpha: Channel,
}

fn value_under(channel: Channel, word: u32) -> u32
    requires { channel.shift < 32 }
    ensures { result ≡ value_under channel word }
{
    (word & channel.mask) >> channel.shift
}

// Two bytes, and four: in functions of their own each is one load once compiled.
fn word(file: &[u8], at: usize) -> u32
    requires { at + 2 ≤ length file.now }
    ensures { (result ≡ word_at file.now at) × (result < 65536) }
{
    byte(file, at) + 256 * byte(file, at + 1)
}

fn dword(file: &[u8], at: usize) -> u32
    requires { at + 4 ≤ length file.now }
    ensures { result ≡ dword_at file.now at }
{
    word(file, at) + 65536 * word(file, at + 2)
}

// The word of a cell of 16 or 32 bits.
fn cell_word(file: &[u8], at: usize, depth: u16) -> u32
    requires known_depth { (depth ≡ 16) ⊎ (depth ≡ 32) }
    requires depth_in_bounds { at + depth / 8 ≤ length file.now }
    ensures { result ≡ cond (eqb depth 16) (word_at file.now at) (dword_at file.now at) }
{
    if depth == 16 {
        return word(file, at);
    }
    dword(file, at)
}

// n cells of 16 or 32 bits, by their channels.
pub fn put_words(
    file: &[u8],
    from: usize,
    depth: u16,
    channels: Channels,
    n: usize,
    cells: &mut [u32],
    to: usize,
)
    requires known_depth { (depth ≡ 16) ⊎ (depth ≡ 32) }
    requires channels_ok { ChannelsOk channels }
    requires depth_in_bounds { from + n * (depth / 8) ≤ length file.now }
    requires n_in_bounds { to + n * 4 ≤ length cells.old }
    ensures { cells.new ≡ put cells.old to (cat (λ x. quad_under channels (cell_word depth (drop from file.now) x)) n) }
{
    let size = depth as usize / 8;
    for x in 0..n {
        let word = cell_word(file, from + x * size, depth);
        let quad = [
            value_under(channels.red, word),
            value_under(channels.green, word),
            value_under(channels.blue, word),
            value_under(channels.alpha, word),
        ];
        put_quad(cells, to + 4 * x, quad);
    }
}
