// The command's run on files in memory.
ghost use Rattle.std.specs.Prelude.{◌≡◌, ◌*◌, min, ltb, length, take, []};
ghost use Rattle.arguments.specs.Options.{is_given, numbered, options_asked};
ghost use Rattle.arguments.specs.Words.{item_at, words_of};
ghost use Rattle.leaves.specs.Formats.{written_name};
ghost use Rattle.messages.specs.Checksum.{cksum};
ghost use Rattle.messages.specs.Messages.{decimal, filled, Says};
ghost use Rattle.planner.specs.Calls.{called};
ghost use Rattle.command.specs.Runs.{causes, too_long_of, too_long_line, written_line, refused_line, written_answer, written_text, Encodes, most_index, sheet_source, SheetRun, Runs, Ran};

use crate::CommandAnswer;
use crate::check::{check, told};
use crate::sample::sample_palette;
use arguments::formats::written_name;
use arguments::options::{CommandOption, format_asked, has_palette, options_asked, source_asked};
use arguments::words::item;
use leaves::checks::below_product;
use leaves::encoder::{EncodeSource, EncodedBmpFormat, written_names};
use leaves::error::Refusal;
use leaves::image::BmpPixelFormat;
use messages::checksum::checksum;
use messages::message::{Piece, tell, tell_line};
use planner::encoder::{Encoded, encode_into};
use planner::plan::encoded_size_bound;
use sheets::{SheetError, cell_text, read_sheet};

// ---- messages

fn tell_too_long(bytes: usize, stride: usize, height: u32, text: &mut [u8]) -> usize
    ensures { Says text.old 0 (filled (decimal bytes) (decimal stride) (decimal height) [] too_long_line) text.new result }
{
    tell(
        text,
        b"the plane has @ bytes, more than stride # times height %: --more-follows allows more\n",
        &[
            Piece::Number(bytes as u64),
            Piece::Number(stride as u64),
            Piece::Number(u64::from(height)),
        ],
    )
}

// A file's name, format, bytes and checksum.
fn tell_file<'a>(name: &'a [u8], format: &'a [u8], file: &[u8], text: &mut [u8]) -> usize
    ensures { Says text.old 0 (filled name.now format.now (decimal (length file.now)) (decimal (cksum file.now)) written_line) text.new result }
{
    tell(
        text,
        b"@: #, % bytes, cksum &\n",
        &[
            Piece::Text(name),
            Piece::Text(format),
            Piece::Number(file.len() as u64),
            Piece::Number(u64::from(checksum(file))),
        ],
    )
}

fn tell_written(name: &[u8], format: EncodedBmpFormat, file: &[u8], text: &mut [u8]) -> usize
    ensures { Says text.old 0 (filled name.now (written_name format) (decimal (length file.now)) (decimal (cksum file.now)) written_line) text.new result }
{
    let names = written_names();
    tell_file(name, written_name(&names, format), file, text)
}

// Says why something is refused, by the table's number.
pub(crate) fn tell_refused(number: u32, text: &mut [u8]) -> usize
    ensures { Says text.old 0 (filled (decimal number) (item_at causes number) [] [] refused_line) text.new result }
{
    let causes = b"|width or height is 0\
        |width or height is over 2147483647\
        |an indexed format needs a palette\
        |the palette's bytes are not a multiple of 4\
        |more than one of masks, calibrated colour and a profile\
        |the masks' depth is neither 16 nor 32\
        |a mask has a bit above the depth\
        |a mask's ones are not one run\
        |a mask shares a bit with an earlier one\
        |the masks of red, green and blue are all 0\
        |masks are for Rgba, Rgb24, Bgra and Bgr24 alone\
        |the plane is shorter than stride times height\
        |the stride is below width times the bytes of a pixel\
        |the file would have more bytes than the limit\
        |a lent buffer or list is too short\
        |neither the stream nor the plain file is within the limit\
        |the head is one that the writer never writes\
        |a byte of header, masks, table, rows or profile lies outside the file\
        |the stream steps over a row's end, ends too early or uses a delta code\
        |the limit is over 4294967295\
        |a resolution is negative\
        |the edges are not 1 to 254 numbers, each above the one before\
        |a cell's low or high is not a number, or the low is above the high";
    let cause = item(causes, number as usize, b'|');
    tell(
        text,
        b"refused, @: #\n",
        &[Piece::Number(u64::from(number)), Piece::Text(cause)],
    )
}

// A place, counted from 1.
fn from_one(place: usize) -> u64 {
    (place as u64).saturating_add(1)
}

// Says which cell of a sheet is no index.
fn tell_cell<'a>(
    name: &'a [u8],
    row: usize,
    column: usize,
    cell: &'a [u8],
    most: u8,
    text: &mut [u8],
) -> usize {
    let line: &[u8] = match most {
        255 => b"@: row #, column %: '&' is no index from 0 to 255\n",
        15 => b"@: row #, column %: '&' is no index from 0 to 15\n",
        3 => b"@: row #, column %: '&' is no index from 0 to 3\n",
        _ => b"@: row #, column %: '&' is no index from 0 to 1\n",
    };
    tell(
        text,
        line,
        &[
            Piece::Text(name),
            Piece::Number(from_one(row)),
            Piece::Number(from_one(column)),
            Piece::Text(cell),
        ],
    )
}

// Says which row of a sheet has another number of cells than the first.
fn tell_ragged(name: &[u8], row: usize, count: usize, width: usize, text: &mut [u8]) -> usize {
    tell(
        text,
        b"@: row # has % cells, and row 1 has &\n",
        &[
            Piece::Text(name),
            Piece::Number(from_one(row)),
            Piece::Number(count as u64),
            Piece::Number(width as u64),
        ],
    )
}

// ---- a picture

// The first n bytes, or all.
fn head_of<'a>(bytes: &'a [u8], n: usize) -> &'a [u8]
    ensures { result.now ≡ take n bytes.now }
{
    bytes.get(..n).unwrap_or(bytes)
}

// Whether there are more bytes than the rows take.
fn is_longer(bytes: usize, stride: usize, height: u32) -> bool
    ensures { result ≡ ltb (stride * height) bytes }
{
    if bytes == 0 {
        return false;
    }
    !below_product(bytes - 1, stride, height as usize)
}

// Where the size query passes, whether a plane is too long, unless more may follow.
fn is_too_long(
    bound: Result<usize, Refusal>,
    source: EncodeSource,
    bytes: usize,
    more: bool,
) -> bool
    ensures { result ≡ too_long_of bound source bytes more }
{
    match bound {
        Ok(_) => is_longer(bytes, source.stride, source.height) && !more,
        Err(_) => false,
    }
}

// The writer's answer as numbers and a message.
fn answer(
    words: &[u8],
    bound: usize,
    encoded: Result<Encoded, Refusal>,
    out: &[u8],
    text: &mut [u8],
) -> CommandAnswer
    ensures { (result ≡ written_answer bound result.text encoded) × Says text.old 0 (written_text (words_of words.now) out.now encoded) text.new result.text }
{
    match encoded {
        Ok(file) => {
            let n = tell_written(
                CommandOption::Out.value_of(words),
                file.format,
                head_of(out, file.bytes),
                text,
            );
            CommandAnswer {
                bytes: file.bytes as u64,
                bound: bound as u64,
                text: n as u64,
                status: 0,
                refusal: 0,
            }
        }
        Err(why) => {
            let number = why.number();
            let n = tell_refused(number, text);
            CommandAnswer {
                bytes: 0,
                bound: bound as u64,
                text: n as u64,
                status: 1,
                refusal: number,
            }
        }
    }
}

fn encode<'a>(
    words: &[u8],
    source: EncodeSource,
    plane: &[u8],
    palette: &[u8],
    icc: &'a [u8],
    linked_icc: &'a [u8],
    out: &mut [u8],
    text: &mut [u8],
) -> CommandAnswer
    ensures { Encodes (words_of words.now) (called source (options_asked (words_of words.now)) plane.now palette.now icc.now linked_icc.now) out.old out.new text.old text.new result }
{
    let options = options_asked(words);
    let bound = encoded_size_bound(source, options, plane, palette, icc, linked_icc);
    if is_too_long(
        bound,
        source,
        plane.len(),
        CommandOption::MoreFollows.is_given(words),
    ) {
        return told(
            2,
            tell_too_long(plane.len(), source.stride, source.height, text),
        );
    }
    let encoded = encode_into(source, options, plane, palette, icc, linked_icc, out, 0);
    answer(words, bound.unwrap_or(0), encoded, out, text)
}

// ---- a sheet

// The largest index of an indexed layout.
fn most_index(format: BmpPixelFormat) -> u8
    ensures { result ≡ most_index format }
{
    match format {
        BmpPixelFormat::Pal8 => 255,
        BmpPixelFormat::Indexed4 => 15,
        BmpPixelFormat::Indexed2 => 3,
        BmpPixelFormat::Indexed1 => 1,
        BmpPixelFormat::Rgba => 0,
        BmpPixelFormat::Rgb24 => 0,
        BmpPixelFormat::Bgra => 0,
        BmpPixelFormat::Bgr24 => 0,
        BmpPixelFormat::Rgb555 => 0,
        BmpPixelFormat::Rgb565 => 0,
    }
}

// A size that 32 bits do not hold becomes the largest that they do, which the table refuses as too large.
fn at_most_32_bits(n: usize) -> u32
    ensures { result ≡ min n 0xFFFFFFFF }
{
    u32::try_from(n).unwrap_or(u32::MAX)
}

fn sheet_source(words: &[u8], width: usize, height: usize) -> EncodeSource
    ensures { result ≡ sheet_source (words_of words.now) width height }
{
    let format = format_asked(words);
    EncodeSource {
        format,
        width: at_most_32_bits(width),
        height: at_most_32_bits(height),
        stride: width,
        has_palette: has_palette(words),
        has_icc: CommandOption::Icc.is_given(words),
        has_linked_icc: CommandOption::LinkedIcc.is_given(words),
    }
}

fn run_sheet<'a>(
    words: &[u8],
    sheet: &[u8],
    palette: &[u8],
    icc: &'a [u8],
    linked_icc: &'a [u8],
    cells: &mut [u8],
    out: &mut [u8],
    text: &mut [u8],
) -> CommandAnswer
    ensures { SheetRun (words_of words.now) sheet.now palette.now icc.now linked_icc.now cells.old out.old out.new text.old text.new result }
{
    let most = most_index(format_asked(words));
    match read_sheet(sheet, most, cells) {
        Ok(grid) => {
            let source = sheet_source(words, grid.width, grid.height);
            encode(
                words,
                source,
                head_of(cells, grid.cells),
                palette,
                icc,
                linked_icc,
                out,
                text,
            )
        }
        Err(
            SheetError::NotAnIndex {
                row,
                column,
                from,
                to,
            },
        ) => {
            let cell = cell_text(sheet, from, to, column);
            told(
                2,
                tell_cell(
                    CommandOption::Csv.value_of(words),
                    row,
                    column,
                    cell,
                    most,
                    text,
                ),
            )
        }
        Err(SheetError::Ragged { row, count, width }) => {
            told(
                2,
                tell_ragged(CommandOption::Csv.value_of(words), row, count, width, text),
            )
        }
        Err(SheetError::NoRoom) => told(
            2,
            tell_line(text, b"not enough memory for the sheet's cells\n"),
        ),
    }
}

// ---- the run

fn run_with<'a>(
    words: &[u8],
    plane: &[u8],
    palette: &[u8],
    icc: &'a [u8],
    linked_icc: &'a [u8],
    cells: &mut [u8],
    out: &mut [u8],
    text: &mut [u8],
) -> CommandAnswer
    ensures { Runs (is_given (numbered "--csv") (words_of words.now)) (words_of words.now) plane.now palette.now icc.now linked_icc.now cells.old out.old out.new text.old text.new result }
{
    if CommandOption::Csv.is_given(words) {
        return run_sheet(words, plane, palette, icc, linked_icc, cells, out, text);
    }
    encode(
        words,
        source_asked(words),
        plane,
        palette,
        icc,
        linked_icc,
        out,
        text,
    )
}

pub fn run<'a>(
    words: &[u8],
    plane: &[u8],
    palette: &[u8],
    icc: &'a [u8],
    linked_icc: &'a [u8],
    cells: &mut [u8],
    out: &mut [u8],
    text: &mut [u8],
) -> CommandAnswer
    ensures { Ran (words_of words.now) plane.now palette.now icc.now linked_icc.now cells.old out.old out.new text.old text.new result }
{
    let checked = check(words, text);
    if checked.status != 3 {
        return checked;
    }
    if CommandOption::SamplePalette.is_given(words) {
        let mixed = sample_palette();
        return run_with(words, plane, &mixed, icc, linked_icc, cells, out, text);
    }
    run_with(words, plane, palette, icc, linked_icc, cells, out, text)
}
