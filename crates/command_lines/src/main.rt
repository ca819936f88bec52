// Runs the command lines that come on standard input, with a 0 for each blank, on the files that they name, and prints
// status, number and message of each.
#![tactic(auto)]

ghost use Rattle.std.specs.Prelude.{◌≡◌, ◌<◌, ◌≤◌, length, IfOk};

use arguments::words::{end_of, part};
use command::CommandAnswer;
use command::check::{check, file_name};
use command::quotes::run_quotes;
use command::run::run;
use std::io::Read;
use std::rt::Files;
use std::{fs, io, str};

fn print(rt: &impl Print, words: &[u8]) -> io::Result<()> {
    rt.write_all(words)
}

fn show(rt: &impl Print, answer: CommandAnswer, text: &[u8]) -> io::Result<()> {
    let status = answer.status;
    let refusal = answer.refusal;
    let bytes = answer.bytes;
    let bound = answer.bound;
    println!(rt; "  {status} {refusal} {bytes} {bound}")?;
    print(rt, part(text, 0, answer.text as usize))
}

// Room for a message, a line's words, or what a small file has.
fn buffer() -> [u8; 4096]
    ensures { 4096 ≡ length result }
{
    [0; 4096]
}

// Room for the lines, a plane, a sheet's cells, or a file that is written.
fn large_buffer() -> [u8; 65536]
    ensures { 65536 ≡ length result }
{
    [0; 65536]
}

// Reads until the buffer is full or the input ends, and answers how many bytes came.
fn read_full(input: &mut impl Read, buf: &mut [u8]) -> io::Result<usize>
    ensures { IfOk result (λ n. n ≤ length buf.new) }
{
    let mut done = 0;
    while done < buf.len() {
        let n = input.read(&mut buf[done..])?;
        if n == 0 {
            break;
        }
        done += n;
    }
    Ok(done)
}

// The open file of this name, if it can be read. A name is text.
fn open_read<R: Files>(rt: &R, name: &[u8]) -> Option<R::File> {
    let path = str::from_utf8(name).ok()?;
    fs::open(rt, path).ok()
}

// Reads a file that a command names, and answers its bytes; 0 where it names none, or none that can be read.
fn read(rt: &(impl Files + Print), words: &[u8], file: u32, buf: &mut [u8]) -> io::Result<usize> {
    let name = file_name(words, file);
    if name.len() == 0 {
        return Ok(0);
    }
    print(rt, b"  reads ")?;
    print(rt, name)?;
    print(rt, b"\n")?;
    let Some(mut opened) = open_read(rt, name) else {
        print(rt, b"  it cannot be read\n")?;
        return Ok(0);
    };
    read_full(&mut opened, buf)
}

fn run_on<'a>(
    rt: &impl Print,
    words: &[u8],
    plane: &[u8],
    palette: &[u8],
    icc: &'a [u8],
    linked_icc: &'a [u8],
) -> io::Result<()> {
    let mut cells = large_buffer();
    let mut out = large_buffer();
    let mut space = buffer();
    let text: &mut [u8] = &mut space;
    let answer = run(
        words, plane, palette, icc, linked_icc, &mut cells, &mut out, text,
    );
    show(rt, answer, text)
}

fn run_profiles(
    rt: &(impl Files + Print),
    words: &[u8],
    plane: &[u8],
    palette: &[u8],
) -> io::Result<()> {
    let mut icc = buffer();
    let mut linked_icc = buffer();
    let n = read(rt, words, 3, &mut icc)?;
    let m = read(rt, words, 4, &mut linked_icc)?;
    run_on(
        rt,
        words,
        plane,
        palette,
        part(&icc, 0, n),
        part(&linked_icc, 0, m),
    )
}

// The plane, or the sheet.
fn read_plane(rt: &(impl Files + Print), words: &[u8], buf: &mut [u8]) -> io::Result<usize> {
    let n = read(rt, words, 0, buf)?;
    if n > 0 {
        return Ok(n);
    }
    read(rt, words, 1, buf)
}

fn run_palette(rt: &(impl Files + Print), words: &[u8], plane: &[u8]) -> io::Result<()> {
    let mut palette = buffer();
    let m = read(rt, words, 2, &mut palette)?;
    run_profiles(rt, words, plane, part(&palette, 0, m))
}

fn run_files(rt: &(impl Files + Print), words: &[u8]) -> io::Result<()> {
    let mut plane = large_buffer();
    let n = read_plane(rt, words, &mut plane)?;
    run_palette(rt, words, part(&plane, 0, n))
}

// The double of a pattern, and one NaN for the pattern of any.
fn double(bits: u64) -> f64 {
    if bits % 0x8000_0000_0000_0000 / 0x10_0000_0000_0000 != 2047 {
        return f64::from_bits(bits);
    }
    if bits % 0x10_0000_0000_0000 == 0 {
        return f64::from_bits(bits);
    }
    0.0 / 0.0
}

// Reads the doubles of a file, 64 at most, and answers their count.
fn read_prices(
    rt: &(impl Files + Print),
    words: &[u8],
    file: u32,
    prices: &mut [f64],
) -> io::Result<usize> {
    let mut bytes = buffer();
    let n = read(rt, words, file, &mut bytes)? / 8;
    let (patterns, _) = bytes.as_chunks::<8>();
    for (price, pattern) in prices.iter_mut().zip(patterns) {
        *price = double(u64::from_le_bytes(*pattern));
    }
    Ok(n)
}

// The first n prices, or all.
fn first<'a>(prices: &'a [f64], n: usize) -> &'a [f64] {
    prices.get(..n).unwrap_or(prices)
}

fn run_prices(rt: &(impl Files + Print), words: &[u8]) -> io::Result<()> {
    let mut a = [0.0f64; 64];
    let mut b = [0.0f64; 64];
    let mut c = [0.0f64; 64];
    let edges: &mut [f64] = &mut a;
    let lows: &mut [f64] = &mut b;
    let highs: &mut [f64] = &mut c;
    let n = read_prices(rt, words, 7, edges)?;
    let m = read_prices(rt, words, 8, lows)?;
    let k = read_prices(rt, words, 9, highs)?;
    let mut cells = buffer();
    let mut space = buffer();
    let text: &mut [u8] = &mut space;
    let answer = run_quotes(
        words,
        first(edges, n),
        first(lows, m),
        first(highs, k),
        &mut cells,
        text,
    );
    if answer.status != 3 {
        return show(rt, answer, text);
    }
    run_palette(rt, words, part(&cells, 0, m))
}

fn run_words(rt: &(impl Files + Print), words: &[u8]) -> io::Result<()> {
    let mut space = buffer();
    let text: &mut [u8] = &mut space;
    let answer = check(words, text);
    if answer.status != 3 {
        return show(rt, answer, text);
    }
    if file_name(words, 7).len() > 0 {
        return run_prices(rt, words);
    }
    run_files(rt, words)
}

// A line with a 0 for each blank and one at its end; an empty line has no words.
fn run_line(rt: &(impl Files + Print), line: &[u8]) -> io::Result<()> {
    print(rt, b"$ ")?;
    print(rt, line)?;
    print(rt, b"\n")?;
    let mut space = buffer();
    let words: &mut [u8] = &mut space;
    let n = line.len();
    if n >= words.len() {
        return Ok(());
    }
    for (word, byte) in words.iter_mut().zip(line) {
        *word = if *byte == b' ' { 0 } else { *byte };
    }
    words[n] = 0;
    if n == 0 {
        return run_words(rt, part(words, 0, 0));
    }
    run_words(rt, part(words, 0, n + 1))
}

fn run_lines(rt: &(impl Files + Print), lines: &[u8]) -> io::Result<()> {
    let mut at = 0;
    while at < lines.len() {
        let end = end_of(lines, at, b'\n');
        run_line(rt, part(lines, at, end))?;
        at = end + 1;
    }
    Ok(())
}

fn main(rt: HostRuntime) -> io::Result<()> {
    let mut space = large_buffer();
    let lines: &mut [u8] = &mut space;
    let n = read_full(&mut rt.reader(), lines)?;
    run_lines(&rt, part(lines, 0, n))
}
