// What the two calls answer, as numbers that can be compared and printed.
use crate::head::word;
use crate::printing::written_name;
use leaves::encoder::EncodeSource;
use leaves::error::Refusal;
use leaves::options::EncodeOptions;
use planner::encoder::{Encoded, encode_into};
use planner::plan::encoded_size_bound;
use std::io;

// The writing call's refusal, or 0 with the format's place in written_name and the bytes appended; the size
// query's refusal, or 0 with the bound.
#[derive(Clone, Copy, PartialEq)]
pub(crate) struct Answer {
    pub(crate) number: u32,
    pub(crate) format: u32,
    pub(crate) bytes: usize,
    pub(crate) bound_number: u32,
    pub(crate) bound: usize,
}

pub(crate) fn expected(head: &[u8]) -> Answer {
    Answer {
        number: word(head, 32),
        format: word(head, 33),
        bytes: word(head, 31) as usize,
        bound_number: word(head, 34),
        bound: word(head, 35) as usize,
    }
}

pub(crate) fn show(rt: &impl Print, a: Answer) -> io::Result<()> {
    let number = a.number;
    let bytes = a.bytes;
    let bound = a.bound;
    let bound_number = a.bound_number;
    if number != 0 {
        print!(rt; "refusal {number}")?;
    } else {
        written_name(rt, a.format as usize)?;
        print!(rt; " of {bytes} bytes")?;
    }
    if bound_number == 0 {
        print!(rt; ", bound {bound}")?;
    } else if bound_number != number {
        print!(rt; ", bound refused with {bound_number}")?;
    }
    Ok(())
}

fn written(encoded: Result<Encoded, Refusal>) -> Answer {
    match encoded {
        Ok(file) => Answer {
            number: 0,
            format: file.format.number(),
            bytes: file.bytes,
            bound_number: 0,
            bound: 0,
        },
        Err(why) => Answer {
            number: why.number(),
            format: 0,
            bytes: 0,
            bound_number: 0,
            bound: 0,
        },
    }
}

fn with_bound(answer: Answer, bound: Result<usize, Refusal>) -> Answer {
    let mut whole = answer;
    match bound {
        Ok(n) => whole.bound = n,
        Err(why) => whole.bound_number = why.number(),
    }
    whole
}

// Both calls.
pub(crate) fn answered<'a>(
    src: EncodeSource,
    options: EncodeOptions,
    plane: &[u8],
    palette: &[u8],
    icc: &'a [u8],
    linked_icc: &'a [u8],
    out: &mut [u8],
    offset: usize,
) -> Answer {
    let bound = encoded_size_bound(src, options, plane, palette, icc, linked_icc);
    let encoded = encode_into(src, options, plane, palette, icc, linked_icc, out, offset);
    with_bound(written(encoded), bound)
}
