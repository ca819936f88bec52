// The command on memory that the caller lends: what its words ask for, the files it needs, and its run. A front in C, or
// another program, reads and writes the files. `command_c` exports the six functions to C.
#![tactic(auto)]

ghost use Rattle.std.specs.Prelude.{◌≡◌};
ghost use Rattle.arguments.specs.Words.{words_of};
ghost use Rattle.leaves.specs.Refusals.{first_applying};
ghost use Rattle.messages.specs.Messages.{Says};
ghost use Rattle.reader.specs.Answers.{sizes_for};
ghost use Rattle.reader.specs.Refusals.{open_rows};
ghost use Rattle.command.specs.Commands.{file_named};
ghost use Rattle.command.specs.QuoteRuns.{QuoteRan};
ghost use Rattle.command.specs.Runs.{Checked, Ran};
ghost use Rattle.command.specs.SheetReads.{lent_sizes, ReadRan};

use crate::check::{check, file_name};
use crate::quotes::run_quotes;
use crate::reading::{lent_sizes, run_reading};
use crate::run::run;
use messages::message::{Piece, tell};

pub mod check;
pub mod quotes;
pub mod reading;
pub mod run;
pub mod sample;

// 32 bytes.
#[repr(C)]
#[derive(Clone, Copy)]
pub struct CommandAnswer {
    // The file's bytes in `out`; 0 where there is none.
    pub bytes: u64,
    // The bytes that `out` must have; 0 where that is not known.
    pub bound: u64,
    // The bytes of the message in `text`.
    pub text: u64,
    // 0 done, 1 refused, 2 not understood, 3 files and memory are wanted.
    pub status: u32,
    // With status 1 the table's number.
    pub refusal: u32,
}

// What must be lent to read a file. 32 bytes.
#[repr(C)]
#[derive(Clone, Copy)]
pub struct CommandSizes {
    pub head_bytes: u64,
    pub table_bytes: u64,
    pub cell_numbers: u64,
    // Enough for the sheet.
    pub out_bytes: u64,
}

// What the words alone say: help, the version, or what is wrong with them; 3 where the command is to be run.
pub fn bmp_command_check(words: &[u8], text: &mut [u8]) -> CommandAnswer
    ensures { Checked (words_of words.now) text.old text.new result }
{
    check(words, text)
}

// Puts the name of a file into `name`, as much of it as fits, and answers its bytes; 0 where the command neither reads
// nor writes it. 0 the plane, 1 the sheet, 2 the palette, 3 the embedded and 4 the linked profile, 5 the file to write,
// 6 the file to read, whose sheet goes to 1, 7 the edges, 8 the lows and 9 the highs of prices.
pub fn bmp_command_file(words: &[u8], file: u32, name: &mut [u8]) -> u64
    ensures { Says name.old 0 (file_named file (words_of words.now)) name.new result }
{
    tell(name, b"@", &[Piece::Text(file_name(words, file))]) as u64
}

// Runs the command on files in memory: `plane` is the plane, the sheet or what `bmp_command_shade` has painted, `cells`
// memory for the sheet's cells, whose later contents are free.
pub fn bmp_command<'a>(
    words: &[u8],
    plane: &[u8],
    palette: &[u8],
    icc: &'a [u8],
    linked_icc: &'a [u8],
    cells: &mut [u8],
    out: &mut [u8],
    text: &mut [u8],
) -> CommandAnswer
    ensures { Ran (words_of words.now) plane.now palette.now icc.now linked_icc.now cells.old out.old out.new text.old text.new result }
{
    run(words, plane, palette, icc, linked_icc, cells, out, text)
}

// Paints the first cells, one for each low, from prices: with status 3 they are the plane that `bmp_command` takes.
pub fn bmp_command_shade(
    words: &[u8],
    edges: &[f64],
    lows: &[f64],
    highs: &[f64],
    cells: &mut [u8],
    text: &mut [u8],
) -> CommandAnswer
    ensures { QuoteRan (words_of words.now) edges.now lows.now highs.now cells.old cells.new text.old text.new result }
{
    run_quotes(words, edges, lows, highs, cells, text)
}

// What must be lent to read a file; all 0 where it is refused.
pub fn bmp_command_read_sizes(file: &[u8]) -> CommandSizes
    ensures { result ≡ lent_sizes (sizes_for (first_applying (open_rows file.now)) file.now) }
{
    lent_sizes(file)
}

// Runs a command that reads: the cells of `file` go to `out` as a sheet. `head`, `table` and `cells` hold later what the
// reader puts there.
pub fn bmp_command_read(
    words: &[u8],
    file: &[u8],
    head: &mut [u8],
    table: &mut [u8],
    cells: &mut [u32],
    out: &mut [u8],
    text: &mut [u8],
) -> CommandAnswer
    ensures { ReadRan (words_of words.now) file.now head.old table.old cells.old head.new table.new cells.new out.old out.new text.old text.new result }
{
    run_reading(words, file, head, table, cells, out, text)
}
