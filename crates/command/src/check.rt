// What a command's words alone decide.
ghost use Rattle.std.specs.Prelude.{◌≡◌, ◌≤◌, length, drop};
ghost use Rattle.std.specs.List.{list_any, list_all};
ghost use Rattle.arguments.specs.Options.{place_of, is_given};
ghost use Rattle.arguments.specs.Words.{words_of};
ghost use Rattle.messages.specs.Messages.{Says};
ghost use Rattle.command.specs.Commands.{cells_fault, write_fault, asks_writing, read_fault, joint_fault, fault_line, fault_text_at, joint_line, joint_text, help_text, version_text, is_skipped, file_named};
ghost use Rattle.command.specs.Runs.{Checked, told_answer};

use crate::CommandAnswer;
use arguments::options::{
    CommandOption, Fault, fault_at, first_fault, format_asked, name_at, value_at,
};
use messages::message::{Piece, tell, tell_line};

// What is missing of a command, or does not go together.
#[derive(Clone, Copy)]
pub enum JointFault {
    NoCells,
    PlaneAndCsv,
    NoWidth,
    NoHeight,
    SizeWithCsv,
    CsvNotIndexed,
    TwoPalettes,
    NoOut,
    ReadAndWrite,
    NoCsv,
    PricesBesideCells,
    PricesApart,
    PricesNotPal8,
}

// The files of prices, which go together.
const PRICES: [CommandOption; 3] = [
    CommandOption::Edges,
    CommandOption::Lows,
    CommandOption::Highs,
];

// The options that name files, in the order of the files' numbers.
const FILES: [CommandOption; 10] = [
    CommandOption::Plane,
    CommandOption::Csv,
    CommandOption::Palette,
    CommandOption::Icc,
    CommandOption::LinkedIcc,
    CommandOption::Out,
    CommandOption::Read,
    CommandOption::Edges,
    CommandOption::Lows,
    CommandOption::Highs,
];

// Whether one of some options is given.
fn any_given(words: &[u8], options: &[CommandOption]) -> bool
    ensures { result ≡ list_any (λ o. is_given (place_of o) (words_of words.now)) options.now }
{
    options.iter().any(|option| option.is_given(words))
}

// Whether all of some options are given.
fn all_given(words: &[u8], options: &[CommandOption]) -> bool
    ensures { result ≡ list_all (λ o. is_given (place_of o) (words_of words.now)) options.now }
{
    options.iter().all(|option| option.is_given(words))
}

// What is wrong with a command that writes: first what the cells come from.
fn cells_fault(words: &[u8]) -> Option<JointFault>
    ensures { result ≡ cells_fault (words_of words.now) }
{
    let plane = CommandOption::Plane.is_given(words);
    let csv = CommandOption::Csv.is_given(words);
    let prices = any_given(words, &PRICES);
    (!(plane | csv | prices))
        .then_some(JointFault::NoCells)
        .or((plane & csv).then_some(JointFault::PlaneAndCsv))
        .or((prices & (plane | csv)).then_some(JointFault::PricesBesideCells))
        .or((prices & !all_given(words, &PRICES)).then_some(JointFault::PricesApart))
}

// And then the rest.
fn write_fault(words: &[u8]) -> Option<JointFault>
    ensures { result ≡ write_fault (words_of words.now) }
{
    let csv = CommandOption::Csv.is_given(words);
    let prices = any_given(words, &PRICES);
    let raw = CommandOption::Plane.is_given(words) | prices;
    let width = CommandOption::Width.is_given(words);
    let height = CommandOption::Height.is_given(words);
    let size = width | height | CommandOption::Stride.is_given(words);
    let two_palettes = CommandOption::Palette.is_given(words)
        & CommandOption::SamplePalette.is_given(words);
    let format = format_asked(words);
    let indexed = format.is_indexed();
    let depth = format.bits_per_pixel();
    cells_fault(words)
        .or((raw & !width).then_some(JointFault::NoWidth))
        .or((raw & !height).then_some(JointFault::NoHeight))
        .or((csv & size).then_some(JointFault::SizeWithCsv))
        .or((csv & !indexed).then_some(JointFault::CsvNotIndexed))
        .or((prices & (depth != 8)).then_some(JointFault::PricesNotPal8))
        .or(two_palettes.then_some(JointFault::TwoPalettes))
        .or((!CommandOption::Out.is_given(words)).then_some(JointFault::NoOut))
}

// Whether a word says how to write: all options do but --csv, --read, help and the version.
fn asks_writing(words: &[u8]) -> bool
    ensures { result ≡ asks_writing (words_of words.now) }
{
    let flags = [
        CommandOption::TopDown,
        CommandOption::MinimalPalette,
        CommandOption::NoRle,
        CommandOption::NoEmbedIcc,
        CommandOption::MoreFollows,
        CommandOption::SamplePalette,
    ];
    let values = [
        CommandOption::Format,
        CommandOption::Width,
        CommandOption::Height,
        CommandOption::Stride,
        CommandOption::RenderingIntent,
        CommandOption::Bitfields,
        CommandOption::Calibrated,
        CommandOption::Limit,
        CommandOption::Pels,
        CommandOption::Plane,
    ];
    let files = [
        CommandOption::Palette,
        CommandOption::Icc,
        CommandOption::LinkedIcc,
        CommandOption::Out,
    ];
    any_given(words, &flags)
        | any_given(words, &values)
        | any_given(words, &files)
        | any_given(words, &PRICES)
}

// What is wrong with a command that reads.
fn read_fault(words: &[u8]) -> Option<JointFault>
    ensures { result ≡ read_fault (words_of words.now) }
{
    let csv = CommandOption::Csv.is_given(words);
    asks_writing(words)
        .then_some(JointFault::ReadAndWrite)
        .or((!csv).then_some(JointFault::NoCsv))
}

fn joint_fault(words: &[u8]) -> Option<JointFault>
    ensures { result ≡ joint_fault (words_of words.now) }
{
    if CommandOption::Read.is_given(words) {
        read_fault(words)
    } else {
        write_fault(words)
    }
}

// What is said of an option that is not understood: @ is its name, # its value.
fn fault_line(fault: Fault) -> &'static [u8]
    ensures { result.now ≡ fault_line fault }
{
    match fault {
        Fault::UnknownOption => b"@ is no option (--help lists the options)\n",
        Fault::NoValue => b"@ has no value (--help lists the options)\n",
        Fault::NoNumber => b"@: '#' is no number from 0 to 4294967295\n",
        Fault::UnknownFormat => {
            b"@: '#' is none of Rgba, Rgb24, Bgra, Bgr24, Rgb555, Rgb565, Pal8, Indexed4, Indexed2, Indexed1\n"
        }
        Fault::NotMasks => {
            b"@: '#' is no list D,R,G,B,A of a depth from 0 to 65535 and four masks from 0 to 4294967295\n"
        }
        Fault::NotCalibrated => {
            b"@: '#' is no list of nine endpoints from -2147483648 to 2147483647 and three gammas from 0 to 4294967295\n"
        }
        Fault::NoStride => b"@: '#' is no number from 0 to 1152921504606846975\n",
        Fault::TakesNoValue => b"@ takes no value, and is given '#'\n",
        Fault::WordBehind => b"@ is followed by '#': the command takes options only\n",
        Fault::NoLimit => b"@: '#' is no number of bytes from 0 to 4294967295\n",
        Fault::NoPels => b"@: '#' is no pair X,Y of pixels a metre from 0 to 2147483647\n",
    }
}

// Says what is wrong with the option at a place.
fn tell_fault(words: &[u8], at: usize, text: &mut [u8]) -> usize
    requires { at ≤ length words.now }
    ensures { Says text.old 0 (fault_text_at (words_of (drop at words.now))) text.new result }
{
    let Some(fault) = fault_at(words, at) else {
        return 0;
    };
    let name = Piece::Text(name_at(words, at));
    let value = Piece::Text(value_at(words, at));
    tell(text, fault_line(fault), &[name, value])
}

fn joint_line(fault: JointFault) -> &'static [u8]
    ensures { result.now ≡ joint_line fault }
{
    match fault {
        JointFault::NoCells => {
            b"--plane FILE or --csv FILE is missing, or --edges, --lows and --highs (--help lists the options)\n"
        }
        JointFault::PlaneAndCsv => b"--plane and --csv are both given\n",
        JointFault::NoWidth => b"--width N is missing\n",
        JointFault::NoHeight => b"--height N is missing\n",
        JointFault::SizeWithCsv => b"--csv takes width, height and stride from the sheet\n",
        JointFault::CsvNotIndexed => b"--csv is for Pal8, Indexed4, Indexed2 and Indexed1 alone\n",
        JointFault::TwoPalettes => b"--palette and --sample-palette are both given\n",
        JointFault::NoOut => b"--out FILE is missing\n",
        JointFault::ReadAndWrite => b"--read goes with --csv FILE alone\n",
        JointFault::NoCsv => b"--csv FILE is missing\n",
        JointFault::PricesBesideCells => {
            b"--edges, --lows and --highs stand in place of --plane and --csv\n"
        }
        JointFault::PricesApart => b"--edges, --lows and --highs go together\n",
        JointFault::PricesNotPal8 => b"--edges, --lows and --highs are for Pal8 alone\n",
    }
}

// Says what is missing, or does not go together.
fn tell_joint(fault: JointFault, text: &mut [u8]) -> usize
    ensures { Says text.old 0 (joint_text fault) text.new result }
{
    tell_line(text, joint_line(fault))
}

fn tell_help(text: &mut [u8]) -> usize
    ensures { Says text.old 0 help_text text.new result }
{
    tell_line(
        text,
        b"Usage: bmp_writer --plane FILE --width N --height N [OPTION ..] --out FILE
       bmp_writer --csv FILE [OPTION ..] --out FILE
       bmp_writer --edges FILE --lows FILE --highs FILE --width N --height N [OPTION ..] --out FILE
       bmp_writer --read FILE --csv OUT

Encodes a raw plane, the indices of a sheet or the shades of prices as a BMP file, and prints its format,
its bytes and the checksum of `cksum`. The exit status is 0, or 1 where the picture is refused, or 2 where
the command is not understood or a file cannot be read or written; FILE is then as it was.

  --plane FILE            rows from the top; - is standard input
  --width N, --height N   cells in a row, and rows
  --stride N              bytes, or prices, from one row to the next [a row's]
  --more-follows          the plane may be longer than stride times height
  --csv FILE              in place of these: rows of indices, as a spreadsheet saves them
  --edges FILE            in place of --plane: the edges of the shades, 1 to 254 rising prices; this file and
                          the next two are doubles of 8 bytes, low byte first
  --lows FILE             the lowest price of each cell, rows from the top
  --highs FILE            the highest; the cell's index is the count of edges at or below it, or 255 where the
                          lowest has another count
  --format NAME           Rgba, Rgb24, Bgra, Bgr24, Rgb555, Rgb565, Pal8, Indexed4, Indexed2 or Indexed1 [Pal8]
  --palette FILE          red, green, blue, alpha of each entry, a byte each
  --sample-palette        256 entries from dark violet to yellow
  --out FILE              the file to write; - is standard output
  --top-down              rows from the top, and no RLE
  --minimal-palette       a colour table as long as the palette
  --no-rle                stored rows even where RLE is shorter
  --bitfields D,R,G,B,A   cells of D bits (16 or 32) with these masks
  --calibrated-rgb LIST   nine endpoints and three gammas, as the header has them
  --icc FILE              a colour profile to embed
  --linked-icc FILE       a linked profile's bytes, taken before an embedded one
  --no-embed-icc          --icc is not written
  --rendering-intent N    of a file with a profile [4]
  --limit BYTES           the most that the file may have, up to 4294967295 [4294967295]
  --pels X,Y              pixels a metre across and down: dots an inch times 10000 / 254, rounded, 2835 for 72
                          and 3780 for 96 [2835,2835]
  --read FILE             a BMP file, whose cells go to OUT: an index, or red, green, blue and alpha each
  --help, -h, --version

A value is the next word, or follows a = as in --width=200; -- may end the options. Numbers are decimal, or
hexadecimal after 0x; LIST has commas. Of an option given twice the last counts.
",
    )
}

fn tell_version(text: &mut [u8]) -> usize
    ensures { Says text.old 0 version_text text.new result }
{
    tell_line(text, b"bmp_writer 1.0.0\n")
}

// An answer with no file.
pub(crate) fn told(status: u32, text: usize) -> CommandAnswer
    ensures { result ≡ told_answer status text }
{
    CommandAnswer {
        bytes: 0,
        bound: 0,
        text: text as u64,
        status,
        refusal: 0,
    }
}

// What the words say: an option that is not understood comes first, then help, the version, and what is missing.
pub fn check(words: &[u8], text: &mut [u8]) -> CommandAnswer
    ensures { Checked (words_of words.now) text.old text.new result }
{
    if let Some(at) = first_fault(words) {
        return told(2, tell_fault(words, at, text));
    }
    if CommandOption::Help.is_given(words) | CommandOption::ShortHelp.is_given(words) {
        return told(0, tell_help(text));
    }
    if CommandOption::Version.is_given(words) {
        return told(0, tell_version(text));
    }
    if let Some(fault) = joint_fault(words) {
        return told(2, tell_joint(fault, text));
    }
    told(3, 0)
}

// Whether a file is a profile that will not be written, and so not read.
fn is_skipped(words: &[u8], file: u32) -> bool
    ensures { result ≡ is_skipped file (words_of words.now) }
{
    let unwritten = CommandOption::NoEmbedIcc.is_given(words)
        | CommandOption::LinkedIcc.is_given(words);
    unwritten & (file == 3)
}

// A file's name; empty where the command neither reads nor writes it.
pub fn file_name<'a>(words: &'a [u8], file: u32) -> &'a [u8]
    ensures { result.now ≡ file_named file (words_of words.now) }
{
    let Some(option) = FILES.get(file as usize) else {
        return b"";
    };
    if is_skipped(words, file) {
        return b"";
    }
    option.value_of(words)
}
