// The reader of the sizing sheet (document 02, A.1): what the newer reader of demand 3 shows, as numbers in lent buffers.
ghost use Rattle.std.specs.Prelude.{◌≡◌, false, ◌≤◌, length};
ghost use Rattle.leaves.specs.Put.{put};
ghost use Rattle.leaves.specs.Refusals.{first_applying};
ghost use Rattle.format.specs.Readers.{fields_of};
ghost use Rattle.reader.specs.Answers.{sizes_answered, sizes_for, answered, rows_in, Read, ReadInto};
ghost use Rattle.reader.specs.Fields.{fields_in};
ghost use Rattle.reader.specs.Numbers.{numbers_of, cell_count};
ghost use Rattle.reader.specs.Refusals.{never_written, outside_file, stream_fails, open_rows};

use crate::checks::{check_open, is_coded, profile_at, profile_bytes};
use crate::fields::{HeadFields, fields_of};
use crate::picture::{fill_rows, fill_stream, numbers_each};
use crate::refusal::ReadRefusal;
use cells::stream::stream_fails;
use leaves::buffer::put_slice;

#[derive(Clone, Copy)]
pub struct Reading {
    pub width: u32,
    pub height: u32,
    pub depth: u32,
    // Where the profile lies in the file; both are 0 where it is empty.
    pub profile_at: usize,
    pub profile_bytes: usize,
}

// What the three lent buffers must have.
#[derive(Clone, Copy)]
pub struct ReadingSizes {
    pub width: u32,
    pub height: u32,
    pub depth: u32,
    pub head_bytes: usize,
    pub table_bytes: usize,
    pub cell_numbers: usize,
}

fn sizes_of(file: &[u8], t: HeadFields) -> Result<ReadingSizes, ReadRefusal>
    requires { fields_in t ≡ fields_of file.now }
    ensures { sizes_answered result ≡ sizes_for (first_applying (open_rows file.now)) file.now }
{
    check_open(file, t)?;
    let height = t.shown_height();
    Ok(ReadingSizes {
        width: t.width,
        height,
        depth: t.depth as u32,
        head_bytes: 14 + t.header_size as usize,
        table_bytes: 4 * t.table_count() as usize,
        cell_numbers: t.width as usize * height as usize * numbers_each(t.depth),
    })
}

// How long the buffers must be that a reading is lent.
pub fn read_sizes(file: &[u8]) -> Result<ReadingSizes, ReadRefusal>
    ensures { sizes_answered result ≡ sizes_for (first_applying (open_rows file.now)) file.now }
{
    sizes_of(file, fields_of(file))
}

// Fills in the cells of a file that no number refuses.
fn fill_cells(file: &[u8], t: HeadFields, cells: &mut [u32])
    requires fields_read { fields_in t ≡ fields_of file.now }
    requires not_17 { never_written file.now ≡ false }
    requires not_18 { outside_file file.now ≡ false }
    requires not_19 { stream_fails file.now ≡ false }
    requires t_in_bounds { cell_count (fields_in t) ≤ length cells.old }
    ensures { cells.new ≡ put cells.old 0 (numbers_of (rows_in file.now)) }
{
    if is_coded(t.compression) {
        fill_stream(
            file,
            t.offset as usize,
            t.depth,
            t.width as usize,
            t.shown_height() as usize,
            cells,
        );
        return;
    }
    fill_rows(file, t, cells);
}

// 19, of a file that 17 and 18 do not refuse.
fn fails(file: &[u8], t: HeadFields) -> bool
    requires fields_read { fields_in t ≡ fields_of file.now }
    requires not_17 { never_written file.now ≡ false }
    requires not_18 { outside_file file.now ≡ false }
    ensures { result ≡ stream_fails file.now }
{
    if !is_coded(t.compression) {
        return false;
    }
    stream_fails(
        file,
        t.offset as usize,
        t.depth,
        t.width as usize,
        t.shown_height() as usize,
    )
}

// Reads the file: head, table and cells go into the lent buffers, and the answer says the size, the depth and where the
// profile lies. A refusal changes nothing.
pub fn read(
    file: &[u8],
    head: &mut [u8],
    table: &mut [u8],
    cells: &mut [u32],
) -> Result<Reading, ReadRefusal>
    ensures { Read file.now head.old table.old cells.old head.new table.new cells.new (answered result) }
{
    let t = fields_of(file);
    let sizes = sizes_of(file, t)?;
    let head_bytes = sizes.head_bytes;
    let table_bytes = sizes.table_bytes;
    if (head.len() < head_bytes)
        | (table.len() < table_bytes)
        | (cells.len() < sizes.cell_numbers)
    {
        return Err(ReadRefusal::BufferTooShort);
    }
    if fails(file, t) {
        return Err(ReadRefusal::StreamFails);
    }
    put_slice(head, 0, &file[0..head_bytes]);
    let table_end = head_bytes + table_bytes;
    put_slice(table, 0, &file[head_bytes..table_end]);
    fill_cells(file, t, cells);
    let profile = profile_bytes(file, t);
    Ok(Reading {
        width: sizes.width,
        height: sizes.height,
        depth: sizes.depth,
        profile_at: profile_at(file, profile),
        profile_bytes: profile as usize,
    })
}

// The same, with the answer through references, 0 or the refusal's number first, and the profile as the part of the file
// that holds it.
pub fn read_into<'a>(
    file: &'a [u8],
    head: &mut [u8],
    table: &mut [u8],
    cells: &mut [u32],
    number: &mut u32,
    width: &mut u32,
    height: &mut u32,
    depth: &mut u32,
) -> &'a [u8]
    ensures { ReadInto file.now head.old table.old cells.old head.new table.new cells.new number.new width.new height.new depth.new result.now }
{
    match read(file, head, table, cells) {
        Ok(reading) => {
            *number = 0;
            *width = reading.width;
            *height = reading.height;
            *depth = reading.depth;
            let start = reading.profile_at;
            &file[start..start + reading.profile_bytes]
        }
        Err(why) => {
            *number = why.number();
            *width = 0;
            *height = 0;
            *depth = 0;
            &file[0..0]
        }
    }
}
