// The command's run where a grid is painted from prices: its cells, which the caller lends then as the plane.
ghost use Rattle.std.specs.Prelude.{◌≡◌, length};
ghost use Rattle.arguments.specs.Words.{words_of};
ghost use Rattle.messages.specs.Messages.{Says};
ghost use Rattle.command.specs.QuoteRuns.{counts_text, Quoted, QuoteRan};

use crate::CommandAnswer;
use crate::check::{check, told};
use crate::reading::refused;
use arguments::options::CommandOption;
use grids::scale::shade_quotes;
use messages::message::{Piece, tell, tell_line};

// Says that there are not as many highs as lows.
fn tell_counts(words: &[u8], lows: usize, highs: usize, text: &mut [u8]) -> usize
    ensures { Says text.old 0 (counts_text (words_of words.now) lows highs) text.new result }
{
    tell(
        text,
        b"@: # prices, and % has &\n",
        &[
            Piece::Text(CommandOption::Highs.value_of(words)),
            Piece::Number(highs as u64),
            Piece::Text(CommandOption::Lows.value_of(words)),
            Piece::Number(lows as u64),
        ],
    )
}

// Paints the cells, or says why not.
fn paint(
    words: &[u8],
    edges: &[f64],
    lows: &[f64],
    highs: &[f64],
    cells: &mut [u8],
    text: &mut [u8],
) -> CommandAnswer
    ensures { Quoted (words_of words.now) edges.now lows.now highs.now cells.old cells.new text.old text.new result }
{
    let n = lows.len();
    if highs.len() != n {
        return told(2, tell_counts(words, n, highs.len(), text));
    }
    if cells.len() < n {
        return told(2, tell_line(text, b"not enough memory for the cells\n"));
    }
    if let Err(why) = shade_quotes(edges, lows, highs, cells) {
        return refused(why.number(), 0, text);
    }
    told(3, 0)
}

// The run of a command that paints.
pub fn run_quotes(
    words: &[u8],
    edges: &[f64],
    lows: &[f64],
    highs: &[f64],
    cells: &mut [u8],
    text: &mut [u8],
) -> CommandAnswer
    ensures { QuoteRan (words_of words.now) edges.now lows.now highs.now cells.old cells.new text.old text.new result }
{
    let checked = check(words, text);
    if checked.status != 3 {
        return checked;
    }
    paint(words, edges, lows, highs, cells, text)
}
