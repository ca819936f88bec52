// A sheet: rows of numbers in a text, as a spreadsheet writes them out. Indices are read, and numbers written.
#![tactic(auto)]

ghost use Rattle.std.specs.Prelude.{◌≡◌, [], map, ◌+◌, ◌-◌, ◌≤◌, SomeIff, length, drop};
ghost use Rattle.leaves.specs.Put.{put};
ghost use Rattle.arguments.specs.Words.{part_of, items_of, item_at};
ghost use Rattle.sheets.specs.Sheets.{separator_of, without_mark, without_return, after_blanks, index_of, rows_of, sheet_rows, width_of, up_to_bad, is_separator, SheetRead};

use arguments::numbers::number;
use arguments::words::{end_of, item, items, part};

pub mod write;

// A sheet that was read: cells in a row, rows, and all cells.
#[derive(Clone, Copy)]
pub struct Grid {
    pub width: usize,
    pub height: usize,
    pub cells: usize,
}

// Why a sheet was not read; rows and columns count from 0.
#[derive(Clone, Copy)]
pub enum SheetError {
    // A cell, and where its row's line starts and ends in the text.
    NotAnIndex {
        row: usize,
        column: usize,
        from: usize,
        to: usize,
    },
    // A row, its cells, and those of the first row.
    Ragged {
        row: usize,
        count: usize,
        width: usize,
    },
    NoRoom,
}

fn is_separator(byte: u8) -> bool
    ensures { result ≡ is_separator byte }
{
    b",;\t".contains(&byte)
}

// What stands between the cells.
fn separator(text: &[u8]) -> u8
    ensures { result ≡ separator_of text.now }
{
    text.iter()
        .copied()
        .find(|byte| is_separator(*byte))
        .unwrap_or(b',')
}

// Where the first line starts: behind a byte order mark.
fn start(text: &[u8]) -> usize
    ensures { (drop result text.now ≡ without_mark text.now) × (result ≤ length text.now) }
{
    if text.starts_with(b"\xEF\xBB\xBF") {
        3
    } else {
        0
    }
}

// A line without the CR of a CR LF.
fn without_return<'a>(line: &'a [u8]) -> &'a [u8]
    ensures { result.now ≡ without_return line.now }
{
    line.strip_suffix(b"\r").unwrap_or(line)
}

// A cell without the blanks in front, which people write behind a comma.
fn after_blanks<'a>(cell: &'a [u8]) -> &'a [u8]
    ensures { result.now ≡ after_blanks cell.now }
{
    match cell.iter().position(|byte| *byte != b' ') {
        Some(from) => &cell[from..],
        None => b"",
    }
}

// The index up to `most` that a cell holds.
fn index(cell: &[u8], most: u8) -> Option<u8>
    ensures { SomeIff result (index_of cell.now ≤ most) (index_of cell.now) }
{
    let n = number(after_blanks(cell))?;
    if n > u64::from(most) {
        return None;
    }
    Some(n as u8)
}

// Reads a line's cells up to the first that is no index, and answers how many they are.
fn read_cells(line: &[u8], separator: u8, most: u8, cells: &mut [u8], at: usize) -> usize
    requires { at + length (items_of separator line.now) ≤ length cells.old }
    ensures { (result ≡ length (up_to_bad most (map index_of (items_of separator line.now)))) × (cells.new ≡ put cells.old at (up_to_bad most (map index_of (items_of separator line.now)))) }
{
    let mut n = 0;
    for cell in line.split(|byte| *byte == separator) {
        let Some(index) = index(cell, most) else {
            return n;
        };
        cells[at + n] = index;
        n += 1;
    }
    n
}

// The cells of the first row from a place on; 0 where there is none.
fn row_width(text: &[u8], at: usize, separator: u8) -> usize
    requires { at ≤ length text.now }
    ensures { result ≡ width_of (rows_of separator (drop at text.now)) }
{
    if at >= text.len() {
        return 0;
    }
    let to = end_of(text, at, b'\n');
    items(without_return(part(text, at, to)), separator)
}

fn read_rows(
    text: &[u8],
    start: usize,
    separator: u8,
    most: u8,
    cells: &mut [u8],
) -> Result<Grid, SheetError>
    requires { start ≤ length text.now }
    ensures { SheetRead result most (rows_of separator (drop start text.now)) cells.old cells.new }
{
    let width = row_width(text, start, separator);
    let mut at = start;
    let mut rows: usize = 0;
    let mut filled: usize = 0;
    while at < text.len() {
        let to = end_of(text, at, b'\n');
        let line = without_return(part(text, at, to));
        let count = items(line, separator);
        if count != width {
            return Err(SheetError::Ragged {
                row: rows,
                count,
                width,
            });
        }
        if cells.len() - filled < width {
            return Err(SheetError::NoRoom);
        }
        let n = read_cells(line, separator, most, cells, filled);
        if n != width {
            return Err(SheetError::NotAnIndex {
                row: rows,
                column: n,
                from: at,
                to,
            });
        }
        filled += width;
        rows += 1;
        at = to + 1;
    }
    Ok(Grid {
        width,
        height: rows,
        cells: filled,
    })
}

// Reads a sheet whose indices go to `most`: its size, and its cells into lent memory.
pub fn read_sheet(text: &[u8], most: u8, cells: &mut [u8]) -> Result<Grid, SheetError>
    ensures { SheetRead result most (sheet_rows text.now) cells.old cells.new }
{
    read_rows(text, start(text), separator(text), most, cells)
}

// What stands in a cell of a row, by where the row's line starts and ends.
pub fn cell_text<'a>(text: &'a [u8], from: usize, to: usize, column: usize) -> &'a [u8]
    ensures { result.now ≡ item_at (items_of (separator_of text.now) (without_return (part_of text.now from to))) column }
{
    item(
        without_return(part(text, from, to)),
        column,
        separator(text),
    )
}
