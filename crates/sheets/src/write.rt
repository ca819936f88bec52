// A sheet as text: numbers in decimal, with commas between them and a newline behind each line.
ghost use Rattle.std.specs.Prelude.{◌≡◌, [], ◌∷◌, ◌++◌, ◌+◌, ◌*◌, ◌^◌, ◌≤◌, ◌<◌, length};
ghost use Rattle.leaves.specs.Put.{put};
ghost use Rattle.messages.specs.Messages.{decimal};
ghost use Rattle.sheets.specs.SheetTexts.{mark_behind, sheet_text};

use itoa::Buffer;
use leaves::buffer::put_slice;

// Puts a number and the byte behind it, and answers the place behind both. A number of 32 bits has 10 digits at most.
fn put_number(text: &mut [u8], at: usize, n: u32, mark: u8) -> usize
    requires { at + 11 ≤ length text.old }
    ensures { (result ≡ at + length (decimal n ++ (mark ∷ []))) × (result ≤ at + 11) × (text.new ≡ put text.old at (decimal n ++ (mark ∷ []))) }
{
    let mut buffer = Buffer::new();
    let digits = buffer.format(n).as_bytes();
    put_slice(text, at, digits);
    let behind = at + digits.len();
    text[behind] = mark;
    behind + 1
}

// What stands behind number k.
fn mark_behind(k: usize, width: usize) -> u8
    requires nonzero { 0 < width }
    requires bound { k + 1 < 2 ^ 64 }
    ensures { result ≡ mark_behind width k }
{
    if (k + 1) % width == 0 { b'\n' } else { b',' }
}

// Writes lines of `width` numbers, and answers the text's bytes.
pub fn write_sheet(cells: &[u32], width: usize, text: &mut [u8]) -> usize
    requires width_nonzero { 0 < width }
    requires cells_in_bounds { 11 * length cells.now ≤ length text.old }
    ensures { (result ≡ length (sheet_text width cells.now)) × (result ≤ length text.old) × (text.new ≡ put text.old 0 (sheet_text width cells.now)) }
{
    let mut at = 0;
    for (k, cell) in cells.iter().enumerate() {
        at = put_number(text, at, *cell, mark_behind(k, width));
    }
    at
}
