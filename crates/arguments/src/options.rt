// A command's options: one that is looked up, the check of all, and what they say together.
ghost use Rattle.std.specs.Prelude.{◌≡◌, [], ◌∷◌, ◌+◌, ◌*◌, ◌≤◌, ◌<◌, pos, MatchOption, unwrap_or, slice_get, length, drop};
ghost use Rattle.leaves.specs.Formats.{bytes_per_pixel};
ghost use Rattle.arguments.specs.Numbers.{number32, signed32};
ghost use Rattle.arguments.specs.Options.{all_options, place_of, option_named, stands_alone, carries_value, carried, is_whole, options_in, last_given, is_given, value_in, value_of, unless, are_masks, fault_of, fault_alone, fault_at, first_fault, number_asked, stride_asked, format_asked, has_palette_of, source_asked, masks_asked, calibrated_asked, intent_asked, pels_asked, options_asked};
ghost use Rattle.arguments.specs.Words.{up_to, items_of, item_at, words_of};

use crate::formats::format_called;
use crate::numbers::{are_numbers, number, number16, number32, signed32};
use crate::words::{end_of, item, part, piece, place_in};
use leaves::bitfields::BmpBitfields;
use leaves::encoder::EncodeSource;
use leaves::image::BmpPixelFormat;
use leaves::options::{CalibratedRgb, EncodeOptions};
use leaves::types::{LCS_GM_IMAGES, MAX_FILE, PELS_PER_METER};

// The options in the order of their names. The first ten stand alone, and each of the others has a value.
#[derive(Clone, Copy, PartialEq, Eq)]
pub enum CommandOption {
    TopDown,
    MinimalPalette,
    NoRle,
    NoEmbedIcc,
    MoreFollows,
    SamplePalette,
    Help,
    ShortHelp,
    Version,
    EndOfOptions,
    Format,
    Width,
    Height,
    Stride,
    RenderingIntent,
    Bitfields,
    Calibrated,
    Limit,
    Pels,
    Plane,
    Csv,
    Palette,
    Icc,
    LinkedIcc,
    Out,
    Read,
    Edges,
    Lows,
    Highs,
}

// Why an option is not understood.
#[derive(Clone, Copy, PartialEq, Eq)]
pub enum Fault {
    UnknownOption,
    NoValue,
    NoNumber,
    UnknownFormat,
    NotMasks,
    NotCalibrated,
    NoStride,
    TakesNoValue,
    WordBehind,
    NoLimit,
    NoPels,
}

// The options in order.
const OPTIONS: [CommandOption; 29] = [
    CommandOption::TopDown,
    CommandOption::MinimalPalette,
    CommandOption::NoRle,
    CommandOption::NoEmbedIcc,
    CommandOption::MoreFollows,
    CommandOption::SamplePalette,
    CommandOption::Help,
    CommandOption::ShortHelp,
    CommandOption::Version,
    CommandOption::EndOfOptions,
    CommandOption::Format,
    CommandOption::Width,
    CommandOption::Height,
    CommandOption::Stride,
    CommandOption::RenderingIntent,
    CommandOption::Bitfields,
    CommandOption::Calibrated,
    CommandOption::Limit,
    CommandOption::Pels,
    CommandOption::Plane,
    CommandOption::Csv,
    CommandOption::Palette,
    CommandOption::Icc,
    CommandOption::LinkedIcc,
    CommandOption::Out,
    CommandOption::Read,
    CommandOption::Edges,
    CommandOption::Lows,
    CommandOption::Highs,
];

// What counts as the number of a value that is none, 2^60. The check refuses such words before.
const NO_NUMBER: u64 = 1 << 60;

// The word that starts at a place.
pub fn word<'a>(words: &'a [u8], at: usize) -> &'a [u8]
    requires { at ≤ length words.now }
    ensures { result.now ≡ up_to 0 (drop at words.now) }
{
    piece(words, at, 0)
}

// The option that a word names before its =.
fn option_named(word: &[u8]) -> Option<CommandOption>
    ensures { result ≡ slice_get all_options (option_named word.now) }
{
    let names =
        b"--top-down,--minimal-palette,--no-rle,--no-embed-icc,--more-follows,--sample-palette,--help,-h,--version,--,\
        --format,--width,--height,--stride,--rendering-intent,--bitfields,--calibrated-rgb,--limit,--pels,--plane,\
        --csv,--palette,--icc,--linked-icc,--out,--read,--edges,--lows,--highs";
    let place = place_in(names, piece(word, 0, b'='), false)?;
    Some(OPTIONS[place])
}

fn stands_alone(option: CommandOption) -> bool
    ensures { result ≡ stands_alone (place_of option) }
{
    option as usize <= CommandOption::EndOfOptions as usize
}

// Whether a word has a value behind a =.
fn carries_value(word: &[u8]) -> bool
    ensures { result ≡ carries_value word.now }
{
    end_of(word, 0, b'=') < word.len()
}

// What stands behind a word's =.
fn carried<'a>(word: &'a [u8]) -> &'a [u8]
    ensures { result.now ≡ carried word.now }
{
    part(word, end_of(word, 0, b'=') + 1, word.len())
}

// Whether an option is one word.
fn is_whole(word: &[u8]) -> bool
    ensures { result ≡ is_whole word.now }
{
    option_named(word).is_some_and(stands_alone) || carries_value(word)
}

// The place after the word at a place.
fn after_word(words: &[u8], at: usize) -> usize
    requires { at ≤ length words.now }
    ensures { result ≡ at + length (up_to 0 (drop at words.now)) + 1 }
{
    end_of(words, at, 0) + 1
}

// The place after the option at a place, and its value.
fn after_option(words: &[u8], at: usize) -> usize
    requires { at ≤ length words.now }
    ensures { (at + 1 ≤ result) × (at < length words.now → options_in (words_of (drop at words.now)) ≡ words_of (drop at words.now) ∷ options_in (words_of (drop result words.now))) }
{
    let next = after_word(words, at);
    if is_whole(word(words, at)) || next > words.len() {
        return next;
    }
    after_word(words, next)
}

// ---- one option

// The place among the options of the one that a word names; 29, past them all, for any other word.
fn place_named(word: &[u8]) -> usize
    ensures { result ≡ option_named word.now }
{
    match option_named(word) {
        Some(option) => option as usize,
        None => OPTIONS.len(),
    }
}

// Where an option is given last. From one option to the next it is one word or two: no iterator of the library goes so.
fn last_given(words: &[u8], option: usize) -> Option<usize>
    ensures { MatchOption result (last_given option (words_of words.now) ≡ []) (λ at. (at < length words.now) × (words_of (drop at words.now) ≡ last_given option (words_of words.now))) }
{
    let mut last = None;
    let mut at = 0;
    while at < words.len() {
        if place_named(word(words, at)) == option {
            last = Some(at);
        }
        at = after_option(words, at);
    }
    last
}

// Whether the option of a place is given; of 29, whether a word that names none stands in an option's place.
pub fn is_given(words: &[u8], option: usize) -> bool
    ensures { result ≡ is_given option (words_of words.now) }
{
    last_given(words, option).is_some()
}

// The name of the option at a place.
pub fn name_at<'a>(words: &'a [u8], at: usize) -> &'a [u8]
    requires { at ≤ length words.now }
    ensures { result.now ≡ up_to 61 (up_to 0 (drop at words.now)) }
{
    piece(word(words, at), 0, b'=')
}

// The value of the option at a place; empty where there is none.
pub fn value_at<'a>(words: &'a [u8], at: usize) -> &'a [u8]
    requires { at ≤ length words.now }
    ensures { result.now ≡ value_in (words_of (drop at words.now)) }
{
    let given = word(words, at);
    if carries_value(given) {
        return carried(given);
    }
    let next = after_word(words, at);
    if next > words.len() {
        return b"";
    }
    word(words, next)
}

// The value of the option of a place; empty where it is not given.
pub fn value_of<'a>(words: &'a [u8], option: usize) -> &'a [u8]
    ensures { result.now ≡ value_of option (words_of words.now) }
{
    match last_given(words, option) {
        Some(at) => value_at(words, at),
        None => b"",
    }
}

impl CommandOption {
    pub fn is_given(self, words: &[u8]) -> bool
        ensures { result ≡ is_given (place_of self) (words_of words.now) }
    {
        is_given(words, self as usize)
    }

    // Its value; empty where it is not given.
    pub fn value_of<'a>(self, words: &'a [u8]) -> &'a [u8]
        ensures { result.now ≡ value_of (place_of self) (words_of words.now) }
    {
        value_of(words, self as usize)
    }
}

// ---- the check

fn are_masks(list: &[u8]) -> bool
    ensures { result ≡ are_masks list.now }
{
    are_numbers(list, 5, 0) && number(item(list, 0, b',')).is_some_and(|depth| depth <= 0xFFFF)
}

fn unless(good: bool, fault: Fault) -> Option<Fault>
    ensures { result ≡ unless good fault }
{
    if good { None } else { Some(fault) }
}

// What is wrong with the value of an option that takes one.
fn fault_of(option: CommandOption, value: &[u8]) -> Option<Fault>
    ensures { result ≡ fault_of (place_of option) value.now }
{
    match option {
        CommandOption::Format => unless(format_called(value).is_some(), Fault::UnknownFormat),
        CommandOption::Width | CommandOption::Height | CommandOption::RenderingIntent => {
            unless(number32(value).is_some(), Fault::NoNumber)
        }
        CommandOption::Stride => unless(number(value).is_some(), Fault::NoStride),
        CommandOption::Bitfields => unless(are_masks(value), Fault::NotMasks),
        CommandOption::Calibrated => unless(are_numbers(value, 12, 9), Fault::NotCalibrated),
        CommandOption::Limit => unless(number(value).is_some(), Fault::NoLimit),
        CommandOption::Pels => unless(are_numbers(value, 2, 2), Fault::NoPels),
        CommandOption::Plane
        | CommandOption::Csv
        | CommandOption::Palette
        | CommandOption::Icc
        | CommandOption::LinkedIcc
        | CommandOption::Out
        | CommandOption::Read
        | CommandOption::Edges
        | CommandOption::Lows
        | CommandOption::Highs => unless(!value.is_empty(), Fault::NoValue),
        _ => Some(Fault::UnknownOption),
    }
}

// What is wrong with an option that stands alone.
fn fault_alone(option: CommandOption, valued: bool, followed: bool) -> Option<Fault>
    ensures { result ≡ fault_alone (place_of option) valued followed }
{
    if valued {
        Some(Fault::TakesNoValue)
    } else if option == CommandOption::EndOfOptions && followed {
        Some(Fault::WordBehind)
    } else {
        None
    }
}

// What is wrong with the option at a place.
pub fn fault_at(words: &[u8], at: usize) -> Option<Fault>
    requires { at ≤ length words.now }
    ensures { result ≡ fault_at (words_of (drop at words.now)) }
{
    let given = word(words, at);
    let next = after_word(words, at);
    let Some(option) = option_named(given) else {
        return Some(Fault::UnknownOption);
    };
    if stands_alone(option) {
        fault_alone(option, carries_value(given), next < words.len())
    } else if carries_value(given) {
        fault_of(option, carried(given))
    } else if next < words.len() {
        fault_of(option, word(words, next))
    } else {
        Some(Fault::NoValue)
    }
}

// The place of the first option that is not understood, by the same steps.
pub fn first_fault(words: &[u8]) -> Option<usize>
    ensures { MatchOption result (first_fault (words_of words.now) ≡ []) (λ at. (at < length words.now) × (words_of (drop at words.now) ≡ first_fault (words_of words.now))) }
{
    let mut at = 0;
    while at < words.len() {
        if fault_at(words, at).is_some() {
            return Some(at);
        }
        at = after_option(words, at);
    }
    None
}

// ---- what options that are understood say

// The bytes of a row of cells.
fn row_bytes(width: u32, format: BmpPixelFormat) -> usize
    ensures { result ≡ bytes_per_pixel format * width }
{
    format.bytes_per_pixel() * width as usize
}

// An option's number, or the usual one where it is not given.
fn number_asked(words: &[u8], option: CommandOption, usual: u64) -> u64
    ensures { result ≡ number_asked (place_of option) usual (words_of words.now) }
{
    if option.is_given(words) {
        return number(option.value_of(words)).unwrap_or(NO_NUMBER);
    }
    usual
}

// Where no stride is given, rows stand close.
fn stride(words: &[u8], width: u32, format: BmpPixelFormat) -> usize
    ensures { result ≡ stride_asked (words_of words.now) width format }
{
    number_asked(
        words,
        CommandOption::Stride,
        row_bytes(width, format) as u64,
    ) as usize
}

// The plane's layout; Pal8 where none is given.
pub fn format_asked(words: &[u8]) -> BmpPixelFormat
    ensures { result ≡ format_asked (words_of words.now) }
{
    format_called(CommandOption::Format.value_of(words)).unwrap_or(BmpPixelFormat::Pal8)
}

// A palette from a file, or the sample's.
pub fn has_palette(words: &[u8]) -> bool
    ensures { result ≡ has_palette_of (words_of words.now) }
{
    CommandOption::Palette.is_given(words) || CommandOption::SamplePalette.is_given(words)
}

pub fn source_asked(words: &[u8]) -> EncodeSource
    ensures { result ≡ source_asked (words_of words.now) }
{
    let format = format_asked(words);
    let width = number32(CommandOption::Width.value_of(words)).unwrap_or(0);
    EncodeSource {
        format,
        width,
        height: number32(CommandOption::Height.value_of(words)).unwrap_or(0),
        stride: stride(words, width, format),
        has_palette: has_palette(words),
        has_icc: CommandOption::Icc.is_given(words),
        has_linked_icc: CommandOption::LinkedIcc.is_given(words),
    }
}

fn mask(list: &[u8], k: usize) -> u32
    ensures { result ≡ unwrap_or (number32 (item_at (items_of 44 list.now) k)) 0 }
{
    number32(item(list, k, b',')).unwrap_or(0)
}

fn masks_asked(list: &[u8]) -> BmpBitfields
    ensures { result ≡ masks_asked list.now }
{
    let red = mask(list, 1);
    let green = mask(list, 2);
    let blue = mask(list, 3);
    let alpha = mask(list, 4);
    BmpBitfields {
        bpp: number16(item(list, 0, b',')).unwrap_or(0),
        masks: [red, green, blue, alpha],
    }
}

fn endpoint(list: &[u8], k: usize) -> i32
    ensures { result ≡ unwrap_or (signed32 (item_at (items_of 44 list.now) k)) (pos 0) }
{
    signed32(item(list, k, b',')).unwrap_or(0)
}

fn calibrated_asked(list: &[u8]) -> CalibratedRgb
    ensures { result ≡ calibrated_asked list.now }
{
    let red_x = endpoint(list, 0);
    let red_y = endpoint(list, 1);
    let red_z = endpoint(list, 2);
    let green_x = endpoint(list, 3);
    let green_y = endpoint(list, 4);
    let green_z = endpoint(list, 5);
    let blue_x = endpoint(list, 6);
    let blue_y = endpoint(list, 7);
    let blue_z = endpoint(list, 8);
    let red = mask(list, 9);
    let green = mask(list, 10);
    let blue = mask(list, 11);
    CalibratedRgb {
        endpoints: [
            red_x, red_y, red_z, green_x, green_y, green_z, blue_x, blue_y, blue_z,
        ],
        gamma: [red, green, blue],
    }
}

fn intent(words: &[u8]) -> u32
    ensures { result ≡ intent_asked (words_of words.now) }
{
    if CommandOption::RenderingIntent.is_given(words) {
        return number32(CommandOption::RenderingIntent.value_of(words)).unwrap_or(0);
    }
    LCS_GM_IMAGES
}

// Pixels a metre, across for 0 and down for 1.
fn pels(words: &[u8], k: usize) -> i32
    ensures { result ≡ pels_asked k (words_of words.now) }
{
    if CommandOption::Pels.is_given(words) {
        return endpoint(CommandOption::Pels.value_of(words), k);
    }
    PELS_PER_METER
}

pub fn options_asked(words: &[u8]) -> EncodeOptions
    ensures { result ≡ options_asked (words_of words.now) }
{
    let bitfields = masks_asked(CommandOption::Bitfields.value_of(words));
    let calibrated_rgb = calibrated_asked(CommandOption::Calibrated.value_of(words));
    EncodeOptions {
        top_down: CommandOption::TopDown.is_given(words),
        minimal_palette: CommandOption::MinimalPalette.is_given(words),
        rle: !CommandOption::NoRle.is_given(words),
        bitfields: CommandOption::Bitfields
            .is_given(words)
            .then_some(bitfields),
        embed_icc: !CommandOption::NoEmbedIcc.is_given(words),
        rendering_intent: intent(words),
        calibrated_rgb: CommandOption::Calibrated
            .is_given(words)
            .then_some(calibrated_rgb),
        limit: number_asked(words, CommandOption::Limit, MAX_FILE),
        x_pels_per_meter: pels(words, 0),
        y_pels_per_meter: pels(words, 1),
    }
}
