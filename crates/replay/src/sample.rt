// The sample: its records are read from standard input and run one after another.
ghost use Rattle.std.specs.Prelude.{◌≤◌, length, IfOk};

use crate::buffer::space;
use crate::cases::{Outcome, run_record};
use crate::groups::{counters, group_lines};
use crate::head::{WORDS, word};
use crate::reading::files_line;
use std::io;
use std::io::Read;

// The marks of the sample and of a record, "BMPS" and "CASE".
const SAMPLE: u32 = 0x5350_4D42;

const CASE: u32 = 0x4553_4143;

// Reads until the buffer is full or the input ends, and answers how many bytes came.
fn read_full(input: &mut impl Read, buf: &mut [u8]) -> io::Result<usize>
    ensures { IfOk result (λ n. n ≤ length buf.new) }
{
    let mut done = 0;
    while done < buf.len() {
        let n = input.read(&mut buf[done..])?;
        if n == 0 {
            break;
        }
        done += n;
    }
    Ok(done)
}

// Fills the buffer's first n bytes; false where it is shorter or the input ends before.
fn read_exactly(input: &mut impl Read, buf: &mut [u8], n: usize) -> io::Result<bool> {
    if buf.len() < n {
        return Ok(false);
    }
    if n == 0 {
        return Ok(true);
    }
    Ok(read_full(input, &mut buf[..n])? == n)
}

// The bytes of a record's slices but for the expected file.
fn body_len(head: &[u8]) -> usize {
    let pixels = word(head, 27) as usize + word(head, 28) as usize;
    pixels + word(head, 29) as usize + word(head, 30) as usize
}

fn read_record(
    input: &mut impl Read,
    head: &mut [u8],
    body: &mut [u8],
    file: &mut [u8],
) -> io::Result<bool> {
    if !read_exactly(input, head, 4 * WORDS)? {
        return Ok(false);
    }
    if word(head, 0) != CASE {
        return Ok(false);
    }
    if !read_exactly(input, body, body_len(head))? {
        return Ok(false);
    }
    read_exactly(input, file, word(head, 31) as usize)
}

// Reads and runs the next record.
fn step(
    rt: &impl Print,
    input: &mut impl Read,
    case: u32,
    counts: &mut [u32],
    files: &mut [u32],
) -> io::Result<Outcome> {
    let mut head_space = [0u8; 164];
    let head: &mut [u8] = &mut head_space;
    let mut body_space = space();
    let body: &mut [u8] = &mut body_space;
    let mut file_space = space();
    let file: &mut [u8] = &mut file_space;
    if !read_record(input, head, body, file)? {
        return Ok(Outcome::Malformed);
    }
    run_record(rt, case, head, body, file, counts, files)
}

// How far the sample was read, and the cases that differ.
#[derive(Drop)]
struct Tally {
    cases: u32,
    differ: u32,
}

fn replayed(
    rt: &impl Print,
    input: &mut impl Read,
    cases: u32,
    counts: &mut [u32],
    files: &mut [u32],
) -> io::Result<Tally> {
    let mut differ = 0;
    for done in 0..cases {
        match step(rt, input, done, counts, files)? {
            Outcome::Agrees => {}
            Outcome::Differs => differ += 1,
            Outcome::Malformed => {
                return Ok(Tally {
                    cases: done,
                    differ,
                });
            }
        }
    }
    Ok(Tally { cases, differ })
}

fn at_end(input: &mut impl Read) -> io::Result<bool> {
    let mut byte = [0u8; 1];
    Ok(read_full(input, &mut byte)? == 0)
}

// Whether the whole sample was read.
fn read_whole(rt: &impl Print, input: &mut impl Read, cases: u32, done: u32) -> io::Result<bool> {
    if done < cases {
        println!(rt; "the sample is malformed or short after this many cases: {done}")?;
        return Ok(false);
    }
    if !at_end(input)? {
        println!(rt; "the sample goes on past its last case")?;
        return Ok(false);
    }
    Ok(true)
}

// Replays the sample; false where it is malformed or short.
pub(crate) fn sample(rt: &impl Print, input: &mut impl Read) -> io::Result<bool> {
    let mut start_space = [0u8; 8];
    let start: &mut [u8] = &mut start_space;
    if !read_exactly(input, start, 8)? || word(start, 0) != SAMPLE {
        println!(rt; "the input is no sample")?;
        return Ok(false);
    }
    let cases = word(start, 1);
    let mut counts_space = counters();
    let counts: &mut [u32] = &mut counts_space;
    let mut files_space = [0u32; 2];
    let files: &mut [u32] = &mut files_space;
    let tally = replayed(rt, input, cases, counts, files)?;
    group_lines(rt, counts)?;
    let Tally {
        cases: done,
        differ,
    } = tally;
    println!(rt; "{done} cases, {differ} differ")?;
    files_line(rt, files)?;
    read_whole(rt, input, cases, done)
}
