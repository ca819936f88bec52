// Runs document 01's examples on the code and prints what comes out: M1 to M8 (row codes), M9 (samples),
// M10 (row stride), M11 (masks), M12 (a file, with its bound) and the two lines after it; then, for each width of 0 to 32 bits, the sum of all 256 samples fitted
// to it, a checksum of the codes of all rows of 1 to 7 cells over the indices 0, 1 and 17, 512 x 512 cells under a limit of 262,144 bytes, and 4,000 quotes painted by
// 254 edges.
#![tactic(auto)]

ghost use Rattle.std.specs.Prelude.{◌≡◌, ◌<◌, ◌≤◌, length};
ghost use Rattle.leaves.specs.Widening.{Widens};

use grids::scale::shade_quotes;
use leaves::bitfields::{quantise, validate};
use leaves::encoder::EncodeSource;
use leaves::image::BmpPixelFormat;
use leaves::options::EncodeOptions;
use leaves::types::row_stride;
use leaves::widening::widening_table;
use planner::encoder::encode_into;
use planner::plan::encoded_size_bound;
use rows::rle::{Rle, encode_rle_row};
use std::io;

fn number(rt: &impl Print, n: u64) -> io::Result<()> {
    print!(rt; " {n}")
}

fn bytes(rt: &impl Print, buf: &[u8], n: usize) -> io::Result<()>
    requires { n ≤ length buf.now }
{
    for byte in &buf[..n] {
        print!(rt; " {byte:02x}")?;
    }
    Ok(())
}

// The first n bytes of a buffer, or all of it.
fn shown(rt: &impl Print, buf: &[u8], n: usize) -> io::Result<()> {
    if n <= buf.len() {
        bytes(rt, buf, n)?;
    }
    Ok(())
}

// A row's codes in a buffer of 512 bytes, which rows of at most 256 cells leave enough of.
fn encode(row: &[u8], rle: Rle, buf: &mut [u8]) -> usize
    requires row_len_bound { length row.now ≤ 256 }
    requires in_bounds { 512 ≤ length buf.old }
    ensures { result ≤ length buf.new }
{
    encode_rle_row(row, rle, buf, 0)
}

fn codes(rt: &impl Print, row: &[u8], rle: Rle) -> io::Result<()>
    requires { length row.now ≤ 256 }
{
    let mut space = [0u8; 512];
    let buf: &mut [u8] = &mut space;
    let n = encode(row, rle, buf);
    bytes(rt, buf, n)
}

fn mask_check(rt: &impl Print, bpp: u16, masks: [u32; 4]) -> io::Result<()> {
    let refusal = match validate(bpp, masks) {
        Ok(()) => 0,
        Err(why) => why.number(),
    };
    number(rt, refusal as u64)
}

// The sum of all samples fitted to n bits.
fn fitted_sum(table: &[u16], n: u32) -> u64
    requires widens { Widens table.now }
    requires n_bound { n ≤ 32 }
{
    let mut sum: u64 = 0;
    for sample in 0..256u32 {
        sum += quantise(table, sample as u8, n) as u64;
    }
    sum
}

fn fitted_sums(rt: &impl Print, table: &[u16]) -> io::Result<()>
    requires { Widens table.now }
{
    for n in 0..=32 {
        number(rt, fitted_sum(table, n))?;
    }
    Ok(())
}

// The largest sample fitted to 5, 10 and 17 bits.
fn samples(rt: &impl Print) -> io::Result<()> {
    let table = widening_table();
    number(rt, quantise(&table, 255, 5) as u64)?;
    number(rt, quantise(&table, 255, 10) as u64)?;
    number(rt, quantise(&table, 255, 17) as u64)
}

fn sums(rt: &impl Print) -> io::Result<()> {
    let table = widening_table();
    fitted_sums(rt, &table)
}

// The hash of n bytes more.
fn hashed(hash: u64, buf: &[u8], n: usize) -> u64
    requires hash_bound { hash < 4294967291 }
    requires n_in_bounds { n ≤ length buf.now }
    ensures { result < 4294967291 }
{
    let mut h = hash;
    for byte in &buf[..n] {
        h = (h * 257 + *byte as u64) % 4294967291;
    }
    h
}

// One of the three indices.
fn index(digit: u32) -> u8 {
    match digit {
        0 => 0,
        1 => 1,
        _ => 17,
    }
}

// The row whose cells are the digits of n to the base 3.
fn nth_row(n: u32) -> [u8; 7]
    ensures { 7 ≡ length result }
{
    let mut row = [0u8; 7];
    let mut left = n;
    for i in 0..7 {
        row[i] = index(left % 3);
        left = left / 3;
    }
    row
}

// The hash of the codes of the rows of `width` cells, of which there are `count`.
fn rows_hash(hash: u64, width: usize, count: u32, rle: Rle, buf: &mut [u8]) -> u64
    requires hash_bound { hash < 4294967291 }
    requires width_bound { width ≤ 7 }
    requires in_bounds { 512 ≤ length buf.old }
    ensures upper_bound { result < 4294967291 }
    ensures buf_len_unchanged { length buf.new ≡ length buf.old }
{
    let mut h = hash;
    for n in 0..count {
        let row = nth_row(n);
        let len = encode(&row[..width], rle, buf);
        h = hashed(h, buf, len);
    }
    h
}

fn all_rows(rt: &impl Print, rle: Rle) -> io::Result<()> {
    let mut space = [0u8; 512];
    let buf: &mut [u8] = &mut space;
    let mut h: u64 = 0;
    let mut count: u32 = 3;
    for width in 1..=7 {
        h = rows_hash(h, width, count, rle, buf);
        count = count % 1000000 * 3;
    }
    number(rt, h)
}

// Pal8 of one row, all 7, with an empty minimal palette.
fn sevens(width: u32, stride: usize) -> EncodeSource {
    EncodeSource {
        format: BmpPixelFormat::Pal8,
        width,
        height: 1,
        stride,
        has_palette: true,
        has_icc: false,
        has_linked_icc: false,
    }
}

fn minimal() -> EncodeOptions {
    let mut options = EncodeOptions::new();
    options.minimal_palette = true;
    options
}

// The bound, and the file appended to nothing; or the refusal's number, twice.
fn file(rt: &impl Print, width: u32, stride: usize, plane: &[u8]) -> io::Result<()> {
    let src = sevens(width, stride);
    let options = minimal();
    let none = [0u8; 0];
    let bound = encoded_size_bound(src, options, plane, &none, &none, &none);
    match bound {
        Ok(n) => number(rt, n as u64)?,
        Err(why) => number(rt, why.number() as u64)?,
    }
    let mut space = [0u8; 128];
    let out: &mut [u8] = &mut space;
    let answer = encode_into(src, options, plane, &none, &none, &none, out, 0);
    match answer {
        Ok(file) => shown(rt, out, file.bytes),
        Err(why) => number(rt, why.number() as u64),
    }
}

// 512 columns of shades that change every `step` cells, along a row and from row to row.
fn surface(plane: &mut [u8], step: usize)
    requires { 0 < step }
    ensures { length plane.new ≡ length plane.old }
{
    for (i, cell) in plane.iter_mut().enumerate() {
        *cell = ((i % 512 + i / 512) / step % 256) as u8;
    }
}

// Bound and bytes of 512 x 512 cells, with a full colour table, for a screen that takes 262,144 bytes; or
// the refusals' numbers.
fn limited(rt: &impl Print, plane: &[u8], rle: bool, out: &mut [u8]) -> io::Result<()> {
    let src = EncodeSource {
        format: BmpPixelFormat::Pal8,
        width: 512,
        height: 512,
        stride: 512,
        has_palette: true,
        has_icc: false,
        has_linked_icc: false,
    };
    let mut options = EncodeOptions::new();
    options.rle = rle;
    options.limit = 262144;
    let none = [0u8; 0];
    match encoded_size_bound(src, options, plane, &none, &none, &none) {
        Ok(n) => number(rt, n as u64)?,
        Err(why) => number(rt, why.number() as u64)?,
    }
    match encode_into(src, options, plane, &none, &none, &none, out, 0) {
        Ok(file) => number(rt, file.bytes as u64),
        Err(why) => number(rt, why.number() as u64),
    }
}

// Shades that change every four cells, whose plain file of 263,222 bytes is over the limit: with RLE and
// without; and shades that change with every cell.
fn panel(rt: &impl Print) -> io::Result<()> {
    let mut cells = [0u8; 262144];
    let mut space = [0u8; 264000];
    let plane: &mut [u8] = &mut cells;
    let out: &mut [u8] = &mut space;
    surface(plane, 4);
    limited(rt, plane, true, out)?;
    limited(rt, plane, false, out)?;
    surface(plane, 1);
    limited(rt, plane, true, out)
}

// Prices from the first on, a step apart.
fn prices(list: &mut [f64], first: f64, step: f64)
    ensures { length list.new ≡ length list.old }
{
    let mut price = first;
    for place in list.iter_mut() {
        *place = price;
        price = price + step;
    }
}

// How many cells are hatched.
fn hatched(plane: &[u8]) -> u64 {
    plane.iter().filter(|cell| **cell == 255).count() as u64
}

// Paints quotes and prints the number, how many cells are hatched, and the checksum.
fn painted(
    rt: &impl Print,
    edges: &[f64],
    lows: &[f64],
    highs: &[f64],
    plane: &mut [u8],
) -> io::Result<()> {
    let refusal = match shade_quotes(edges, lows, highs, plane) {
        Ok(()) => 0,
        Err(why) => why.number(),
    };
    number(rt, refusal as u64)?;
    number(rt, hatched(plane))?;
    number(rt, hashed(0, plane, plane.len()))
}

// A plane of one byte more than there are lows.
fn all_painted(rt: &impl Print, edges: &[f64], lows: &[f64], highs: &[f64]) -> io::Result<()> {
    let mut cells = [9u8; 4001];
    let plane: &mut [u8] = &mut cells;
    painted(rt, edges, lows, highs, plane)
}

// The quotes; then lows for highs, no edges, and highs that end too early.
fn calls(rt: &impl Print, edges: &[f64], lows: &[f64], highs: &[f64]) -> io::Result<()>
    requires { length highs.now ≡ 4000 }
{
    all_painted(rt, edges, lows, highs)?;
    all_painted(rt, edges, highs, lows)?;
    all_painted(rt, &edges[0..0], lows, highs)?;
    all_painted(rt, edges, lows, &highs[0..3999])
}

// Edges an eighth apart, and 4,000 quotes from below the first to above the last.
fn quotes(rt: &impl Print) -> io::Result<()> {
    let mut rising = [0.0f64; 254];
    let mut low_prices = [0.0f64; 4000];
    let mut high_prices = [0.0f64; 4000];
    let edges: &mut [f64] = &mut rising;
    let lows: &mut [f64] = &mut low_prices;
    let highs: &mut [f64] = &mut high_prices;
    prices(edges, 0.0 - 16.0, 0.125);
    prices(lows, 0.0 - 20.0, 0.01);
    prices(highs, 0.0 - 19.97, 0.01);
    calls(rt, edges, lows, highs)
}

fn row_examples(rt: &impl Print) -> io::Result<()> {
    print!(rt; "M1")?;
    codes(rt, &[5u8], Rle::Rle8)?;
    print!(rt; "\nM2")?;
    codes(rt, &[1u8, 2], Rle::Rle8)?;
    print!(rt; "\nM3")?;
    codes(rt, &[1u8, 2, 3], Rle::Rle8)?;
    print!(rt; "\nM4")?;
    codes(rt, &[1u8, 2, 3, 3], Rle::Rle8)?;
    print!(rt; "\nM5")?;
    codes(rt, &[7u8; 256], Rle::Rle8)?;
    print!(rt; "\nM6")?;
    codes(rt, &[1u8, 2], Rle::Rle4)?;
    print!(rt; "\nM7")?;
    codes(rt, &[1u8, 2, 3, 4, 5], Rle::Rle4)?;
    print!(rt; "\nM8")?;
    codes(rt, &[19u8, 3], Rle::Rle4)
}

fn main(rt: HostRuntime) -> io::Result<()> {
    row_examples(&rt)?;
    print!(rt; "\nM9")?;
    samples(&rt)?;
    print!(rt; "\nM10")?;
    number(&rt, row_stride(32, 1) as u64)?;
    number(&rt, row_stride(33, 1) as u64)?;
    print!(rt; "\nM11")?;
    mask_check(&rt, 16, [0x50000, 0, 0, 0])?;
    mask_check(&rt, 16, [0xA00, 0, 0, 0])?;
    mask_check(&rt, 16, [0, 0, 0, 0xFF00])?;
    print!(rt; "\nM12")?;
    file(&rt, 5, 5, &[7u8; 5])?;
    print!(rt; "\n4 x 1")?;
    file(&rt, 4, 4, &[7u8; 4])?;
    print!(rt; "\none byte short")?;
    file(&rt, 4, 6, &[7u8; 5])?;
    print!(rt; "\nfitted")?;
    sums(&rt)?;
    print!(rt; "\nrows")?;
    all_rows(&rt, Rle::Rle8)?;
    all_rows(&rt, Rle::Rle4)?;
    print!(rt; "\npanel")?;
    panel(&rt)?;
    print!(rt; "\nquotes")?;
    quotes(&rt)?;
    print!(rt; "\n")
}
