// Replays a stored sample of the original encoder's answers, which comes on standard input
// (bench/replay/README.md says how it was made and in which format), then runs document 01's examples that
// are no M lines. Every file that is written is read back, whole and row by row.
#![tactic(auto)]

mod agreed;
mod answers;
mod buffer;
mod cases;
mod examples;
mod groups;
mod head;
mod printing;
mod reading;
mod sample;
mod shown;
mod starts;

use crate::examples::{
    cut_first, four_by_one, last_row, one_byte_short, profile_place, tie, width_field,
};
use crate::reading::files_line;
use crate::sample::sample;
use std::io;

fn main(rt: HostRuntime) -> io::Result<()> {
    let mut input = rt.reader();
    if !sample(&rt, &mut input)? {
        return Ok(());
    }
    let mut files_space = [0u32; 2];
    let files: &mut [u32] = &mut files_space;
    four_by_one(&rt, files)?;
    one_byte_short(&rt, files)?;
    tie(&rt, files)?;
    cut_first(&rt, files)?;
    last_row(&rt, files)?;
    profile_place(&rt, files)?;
    width_field(&rt, files)?;
    files_line(&rt, files)
}
