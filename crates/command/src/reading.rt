// The command's run where it reads: the cells of a BMP file as a sheet.
ghost use Rattle.std.specs.Prelude.{◌≡◌, cond, [], leb};
ghost use Rattle.arguments.specs.Words.{item_at, words_of};
ghost use Rattle.leaves.specs.Refusals.{first_applying};
ghost use Rattle.messages.specs.Messages.{decimal, filled, Says};
ghost use Rattle.reader.specs.Answers.{sizes_for};
ghost use Rattle.reader.specs.Refusals.{open_rows};
ghost use Rattle.command.specs.Runs.{causes, refused_line};
ghost use Rattle.command.specs.SheetReads.{room_for, lent_sizes, refused_answer, read_line, SheetOut, ReadRan};

use crate::check::check;
use crate::run::tell_refused;
use crate::{CommandAnswer, CommandSizes};
use messages::message::{Piece, tell};
use reader::read::{read, read_sizes};
use sheets::write::write_sheet;

// The memory for so many numbers, as far as 64 bits count.
fn room_for(numbers: usize) -> usize
    ensures { result ≡ room_for numbers }
{
    if numbers > 1676976733973595601 {
        return 0xFFFF_FFFF_FFFF_FFFF;
    }
    11 * numbers
}

// What must be lent to read a file; all 0 where it is refused.
pub fn lent_sizes(file: &[u8]) -> CommandSizes
    ensures { result ≡ lent_sizes (sizes_for (first_applying (open_rows file.now)) file.now) }
{
    match read_sizes(file) {
        Ok(sizes) => CommandSizes {
            head_bytes: sizes.head_bytes as u64,
            table_bytes: sizes.table_bytes as u64,
            cell_numbers: sizes.cell_numbers as u64,
            out_bytes: room_for(sizes.cell_numbers) as u64,
        },
        Err(_) => CommandSizes {
            head_bytes: 0,
            table_bytes: 0,
            cell_numbers: 0,
            out_bytes: 0,
        },
    }
}

fn tell_read(width: u32, height: u32, depth: u32, bytes: usize, text: &mut [u8]) -> usize
    ensures { Says text.old 0 (filled (decimal width) (decimal height) (decimal depth) (decimal bytes) read_line) text.new result }
{
    tell(
        text,
        b"@ x #, % bits, sheet of & bytes\n",
        &[
            Piece::Number(u64::from(width)),
            Piece::Number(u64::from(height)),
            Piece::Number(u64::from(depth)),
            Piece::Number(bytes as u64),
        ],
    )
}

pub(crate) fn refused(number: u32, bound: usize, text: &mut [u8]) -> CommandAnswer
    ensures { (result ≡ refused_answer number bound result.text) × Says text.old 0 (filled (decimal number) (item_at causes number) [] [] refused_line) text.new result.text }
{
    let n = tell_refused(number, text);
    CommandAnswer {
        bytes: 0,
        bound: bound as u64,
        text: n as u64,
        status: 1,
        refusal: number,
    }
}

// How many numbers a cell has.
fn columns_each(depth: u32) -> usize
    ensures { result ≡ cond (leb depth 8) 1 4 }
{
    if depth <= 8 { 1 } else { 4 }
}

// Reads a file, and puts its cells into `out` as a sheet.
fn sheet_out(
    file: &[u8],
    head: &mut [u8],
    table: &mut [u8],
    cells: &mut [u32],
    out: &mut [u8],
    text: &mut [u8],
) -> CommandAnswer
    ensures { SheetOut file.now head.old table.old cells.old head.new table.new cells.new out.old out.new text.old text.new result }
{
    let reading = match read(file, head, table, cells) {
        Ok(reading) => reading,
        Err(why) => return refused(why.number(), 0, text),
    };
    let line = reading.width as usize * columns_each(reading.depth);
    let count = line * reading.height as usize;
    let bound = room_for(count);
    if out.len() < bound {
        return refused(15, bound, text);
    }
    let bytes = write_sheet(&cells[0..count], line, out);
    let n = tell_read(reading.width, reading.height, reading.depth, bytes, text);
    CommandAnswer {
        bytes: bytes as u64,
        bound: bound as u64,
        text: n as u64,
        status: 0,
        refusal: 0,
    }
}

// The run of a command that reads.
pub fn run_reading(
    words: &[u8],
    file: &[u8],
    head: &mut [u8],
    table: &mut [u8],
    cells: &mut [u32],
    out: &mut [u8],
    text: &mut [u8],
) -> CommandAnswer
    ensures { ReadRan (words_of words.now) file.now head.old table.old cells.old head.new table.new cells.new out.old out.new text.old text.new result }
{
    let checked = check(words, text);
    if checked.status != 3 {
        return checked;
    }
    sheet_out(file, head, table, cells, out, text)
}
