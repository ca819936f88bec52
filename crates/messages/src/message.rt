// Messages in lent memory: as much of one as fits.
ghost use Rattle.std.specs.Prelude.{◌≡◌, [], ◌≤◌, length};
ghost use Rattle.messages.specs.Messages.{piece_at, piece_for, filled, Says};

use itoa::Buffer;
use leaves::buffer::put_slice;

// What stands for a mark of a line: a text, or a number in decimal.
#[derive(Clone, Copy)]
pub enum Piece<'a> {
    Text(&'a [u8]),
    Number(u64),
}

// Puts a text at a place, and answers the place behind it.
fn say(text: &mut [u8], at: usize, piece: &[u8]) -> usize
    requires { at ≤ length text.old }
    ensures { Says text.old at piece.now text.new result }
{
    let n = piece.len().min(text.len() - at);
    put_slice(text, at, &piece[..n]);
    at + n
}

// Puts piece k, where there is one.
fn say_piece(text: &mut [u8], at: usize, pieces: &[Piece], k: usize) -> usize
    requires { at ≤ length text.old }
    ensures { Says text.old at (piece_at pieces.now k) text.new result }
{
    match pieces.get(k) {
        Some(Piece::Text(bytes)) => say(text, at, bytes),
        Some(Piece::Number(n)) => say(text, at, Buffer::new().format(*n).as_bytes()),
        None => at,
    }
}

// Puts what a byte of a line stands for.
fn say_mark(text: &mut [u8], at: usize, mark: u8, pieces: &[Piece]) -> usize
    requires { at ≤ length text.old }
    ensures { Says text.old at (piece_for (piece_at pieces.now 0) (piece_at pieces.now 1) (piece_at pieces.now 2) (piece_at pieces.now 3) mark) text.new result }
{
    match mark {
        b'@' => say_piece(text, at, pieces, 0),
        b'#' => say_piece(text, at, pieces, 1),
        b'%' => say_piece(text, at, pieces, 2),
        b'&' => say_piece(text, at, pieces, 3),
        _ => say(text, at, &[mark]),
    }
}

// Puts a line with its marks filled in, and answers its bytes.
pub fn tell(text: &mut [u8], line: &[u8], pieces: &[Piece]) -> usize
    ensures { Says text.old 0 (filled (piece_at pieces.now 0) (piece_at pieces.now 1) (piece_at pieces.now 2) (piece_at pieces.now 3) line.now) text.new result }
{
    let mut at = 0;
    for mark in line {
        at = say_mark(text, at, *mark, pieces);
    }
    at
}

// Puts a line without marks.
pub fn tell_line(text: &mut [u8], line: &[u8]) -> usize
    ensures { Says text.old 0 (filled [] [] [] [] line.now) text.new result }
{
    tell(text, line, &[])
}
