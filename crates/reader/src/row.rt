// One row of a file, from a place (document 02, A.7): what the newer reader shows from there, as numbers in a lent buffer.
ghost use Rattle.std.specs.Prelude.{◌≡◌, false, length};
ghost use Rattle.leaves.specs.Refusals.{first_applying};
ghost use Rattle.format.specs.Readers.{fields_of};
ghost use Rattle.reader.specs.Fields.{fields_in};
ghost use Rattle.reader.specs.OneRow.{row_outside, row_fails, row_rows, ShowsRow, ReadRow};
ghost use Rattle.reader.specs.Refusals.{answer_number, never_written, head_outside};

use crate::checks::{head_outside, is_coded, never_written};
use crate::fields::{HeadFields, fields_of};
use crate::picture::{channels_of, numbers_each, put_row};
use crate::refusal::ReadRefusal;
use cells::stream::{fill_row, stream_fails};
use leaves::types::row_stride;

// Whether a byte of the stored row that begins at `start` lies outside a file of n bytes.
fn row_outside(n: usize, t: HeadFields, start: usize) -> bool
    ensures { result ≡ row_outside n (fields_in t) start }
{
    if is_coded(t.compression) {
        return false;
    }
    // Before any sum: the start may be any number.
    if n < start {
        return true;
    }
    n - start < row_stride(t.width, t.depth)
}

// 19, of a file whose head 17 and 18 do not refuse.
fn row_fails(file: &[u8], t: HeadFields, start: usize) -> bool
    requires fields_read { fields_in t ≡ fields_of file.now }
    requires not_17 { never_written file.now ≡ false }
    requires head_inside { head_outside (length file.now) (fields_in t) ≡ false }
    ensures { result ≡ row_fails file.now (fields_in t) start }
{
    if !is_coded(t.compression) {
        return false;
    }
    if file.len() < start {
        return true;
    }
    stream_fails(file, start, t.depth, t.width as usize, 1)
}

// 17, 18, 15 and 19, with room for so many numbers.
fn check_row(file: &[u8], t: HeadFields, start: usize, cells: usize) -> Result<(), ReadRefusal>
    requires { fields_in t ≡ fields_of file.now }
    ensures { answer_number result ≡ first_applying (row_rows file.now start cells) }
{
    if never_written(file, t) {
        return Err(ReadRefusal::NeverWritten);
    }
    let n = file.len();
    if head_outside(n, t) | row_outside(n, t, start) {
        return Err(ReadRefusal::OutsideFile);
    }
    if cells < t.width as usize * numbers_each(t.depth) {
        return Err(ReadRefusal::BufferTooShort);
    }
    if row_fails(file, t, start) {
        return Err(ReadRefusal::StreamFails);
    }
    Ok(())
}

// Fills in the numbers of a row that no number refuses.
fn fill_one(file: &[u8], t: HeadFields, start: usize, cells: &mut [u32])
    requires fields_read { fields_in t ≡ fields_of file.now }
    requires none_applies { first_applying (row_rows file.now start (length cells.old)) ≡ 0 }
    ensures { ShowsRow file.now start cells.old cells.new }
{
    if is_coded(t.compression) {
        fill_row(file, start, t.depth, t.width as usize, cells, 0);
        return;
    }
    put_row(file, start, t, channels_of(file, t.compression), cells, 0);
}

// Reads the row that begins at `start`, wherever in the file that is, into the lent numbers. A refusal changes nothing.
pub fn read_row(file: &[u8], start: u64, cells: &mut [u32]) -> Result<(), ReadRefusal>
    ensures { ReadRow file.now start cells.old cells.new (answer_number result) }
{
    let t = fields_of(file);
    let from = start as usize;
    check_row(file, t, from, cells.len())?;
    fill_one(file, t, from, cells);
    Ok(())
}
