// A case: its calls are run, and what they answer and write is compared with what is expected.
use crate::agreed::agreed;
use crate::answers::{Answer, answered, expected, show};
use crate::buffer::{differing, fill, space};
use crate::groups::{count, group_of, mode_of};
use crate::head::{options_of, source_of, word};
use crate::printing::source_name;
use crate::reading::{count_file, is_read_back};
use arguments::words::part;
use std::io;

// How a record's case came out.
#[derive(Clone, Copy)]
pub(crate) enum Outcome {
    Agrees,
    Differs,
    Malformed,
}

// Where the slices end that a case's body holds one behind another.
#[derive(Drop)]
struct Ends {
    plane: usize,
    palette: usize,
    icc: usize,
    linked: usize,
}

fn ends_of(head: &[u8]) -> Ends {
    let plane = word(head, 27) as usize;
    let palette = plane + word(head, 28) as usize;
    let icc = palette + word(head, 29) as usize;
    let linked = icc + word(head, 30) as usize;
    Ends {
        plane,
        palette,
        icc,
        linked,
    }
}

// Both calls of a case.
fn called(head: &[u8], body: &[u8], out: &mut [u8]) -> Answer {
    let ends = ends_of(head);
    answered(
        source_of(head),
        options_of(head),
        part(body, 0, ends.plane),
        part(body, ends.plane, ends.palette),
        part(body, ends.palette, ends.icc),
        part(body, ends.icc, ends.linked),
        out,
        word(head, 24) as usize,
    )
}

// Whether the file that a case wrote is read back.
fn reads_back(head: &[u8], body: &[u8], file: &[u8]) -> bool {
    let ends = ends_of(head);
    is_read_back(
        source_of(head),
        options_of(head),
        part(body, 0, ends.plane),
        part(body, ends.plane, ends.palette),
        part(body, ends.palette, ends.icc),
        part(body, ends.icc, ends.linked),
        file,
    )
}

// A case by its number, what is said of it, and its source format and mode.
fn case_name(rt: &impl Print, head: &[u8], case: u32, what: &str) -> io::Result<()> {
    print!(rt; "case {case} {what}: ")?;
    source_name(rt, word(head, 1) as usize)?;
    let mode = mode_of(source_of(head), options_of(head));
    print!(rt; ", {mode}")
}

// Counts the file that a case wrote at its offset, if it wrote one, reads it back, and tells where that gives
// something else than was handed in.
fn read_written(
    rt: &impl Print,
    case: u32,
    head: &[u8],
    body: &[u8],
    came: Answer,
    out: &[u8],
    files: &mut [u32],
) -> io::Result<()> {
    if came.number != 0 {
        return Ok(());
    }
    let behind = part(out, word(head, 24) as usize, out.len());
    let read_back = reads_back(head, body, part(behind, 0, came.bytes));
    count_file(files, read_back);
    if !read_back {
        case_name(rt, head, case, "is not read back")?;
        println!(rt)?;
    }
    Ok(())
}

fn difference_line(
    rt: &impl Print,
    head: &[u8],
    case: u32,
    wanted: Answer,
    came: Answer,
    bytes: usize,
) -> io::Result<()> {
    case_name(rt, head, case, "differs")?;
    print!(rt; ": expected ")?;
    show(rt, wanted)?;
    print!(rt; "; came ")?;
    show(rt, came)?;
    println!(rt; "; bytes that differ: {bytes}")
}

// Runs a case in a buffer.
fn compared(
    rt: &impl Print,
    case: u32,
    head: &[u8],
    body: &[u8],
    file: &mut [u8],
    out: &mut [u8],
    files: &mut [u32],
) -> io::Result<Outcome> {
    let pels = [word(head, 39), word(head, 40)];
    let wanted = agreed(options_of(head), pels, expected(head), file);
    let seed = word(head, 26);
    fill(out, seed);
    let came = called(head, body, out);
    let bytes = differing(out, seed, word(head, 24) as usize, file);
    read_written(rt, case, head, body, came, out, files)?;
    if wanted == came && bytes == 0 {
        return Ok(Outcome::Agrees);
    }
    difference_line(rt, head, case, wanted, came, bytes)?;
    Ok(Outcome::Differs)
}

// Runs it in a buffer of the case's length.
fn compared_in_room(
    rt: &impl Print,
    case: u32,
    head: &[u8],
    body: &[u8],
    file: &mut [u8],
    files: &mut [u32],
) -> io::Result<Outcome> {
    let room = word(head, 25) as usize;
    let mut out_space = space();
    let out: &mut [u8] = &mut out_space;
    if room > out.len() {
        return Ok(Outcome::Malformed);
    }
    compared(rt, case, head, body, file, &mut out[..room], files)
}

// Runs a record that was read.
pub(crate) fn run_record(
    rt: &impl Print,
    case: u32,
    head: &[u8],
    body: &[u8],
    file: &mut [u8],
    counts: &mut [u32],
    files: &mut [u32],
) -> io::Result<Outcome> {
    let size = word(head, 31) as usize;
    if size > file.len() {
        return Ok(Outcome::Malformed);
    }
    count(counts, group_of(head, expected(head)));
    compared_in_room(rt, case, head, body, &mut file[..size], files)
}
