// The writer, the reader and what paints a grid for callers from C: structs and numbers instead of enums. `clients/c/bmp_writer.h` declares the
// same.
#![tactic(auto)]

ghost use Rattle.std.specs.Prelude.{◌≡◌, [], ◌∷◌};
ghost use Rattle.leaves.specs.Masks.{bitfields_rows};
ghost use Rattle.leaves.specs.Refusals.{first_number, first_applying};
ghost use Rattle.reader.specs.Refusals.{open_rows};
ghost use Rattle.reader.specs.Answers.{sizes_answered, sizes_for, answered};
ghost use Rattle.reader.specs.OneRow.{ReadRow};
ghost use Rattle.grids.specs.Scale.{Shaded};
ghost use Rattle.capi.specs.Interface.{format_at, default_settings, source_of, options_of, refused_with, encoded_answer, bound_answer, EncodePromise, StartsPromise, BoundPromise};
ghost use Rattle.capi.specs.Reading.{reading_answer, sizes_answer, ReadPromise};

use grids::scale::shade_quotes;
use leaves::bitfields::{BmpBitfields, validate};
use leaves::encoder::EncodeSource;
use leaves::error::Refusal;
use leaves::image::BmpPixelFormat;
use leaves::options::{CalibratedRgb, EncodeOptions};
use leaves::types::{MAX_FILE, PELS_PER_METER};
use planner::encoder::{Encoded, encode_into, encode_with_starts};
use planner::plan::encoded_size_bound;
use reader::read::{Reading, ReadingSizes, read, read_sizes};
use reader::refusal::ReadRefusal;
use reader::row::read_row;

// 76 bytes.
#[repr(C)]
#[derive(Clone, Copy)]
pub struct BmpOptions {
    pub top_down: bool,
    pub minimal_palette: bool,
    pub rle: bool,
    pub embed_icc: bool,
    pub has_bitfields: bool,
    pub has_calibrated: bool,
    pub bitfields_bpp: u16,
    // Red, green, blue, alpha.
    pub bitfields_masks: [u32; 4],
    pub rendering_intent: u32,
    pub endpoints: [i32; 9],
    pub gamma: [u32; 3],
}

// 16 bytes.
#[repr(C)]
#[derive(Clone, Copy)]
pub struct BmpSettings {
    // Bytes that a file may have.
    pub limit: u64,
    // Pixels a metre.
    pub x_pels_per_meter: i32,
    pub y_pels_per_meter: i32,
}

// 24 bytes.
#[repr(C)]
#[derive(Clone, Copy)]
pub struct BmpSource {
    // 0 Rgba, 1 Rgb24, 2 Bgra, 3 Bgr24, 4 Rgb555, 5 Rgb565, 6 Pal8, 7 Indexed4, 8 Indexed2, 9 Indexed1.
    pub format: u32,
    pub width: u32,
    pub height: u32,
    pub has_palette: bool,
    pub has_icc: bool,
    pub has_linked_icc: bool,
    pub stride: u64,
}

#[repr(C)]
#[derive(Clone, Copy)]
pub struct BmpAnswer {
    // Bytes appended, or the bound; 0 with a refusal.
    pub bytes: u64,
    // 0, or the refusal's number; 255 for a format that is not listed.
    pub refusal: u32,
    // 0 Rgb32, 1 Rgb24, 2 Rgb16Rgb, 3 Rgb16Bitfields, 4 Indexed8, 5 Indexed4, 6 Indexed2, 7 Rle8, 8 Rle4,
    // 9 Indexed1, 10 Bitfields, 11 AlphaBitfields; 0 with a refusal and from the size query.
    pub format: u32,
}

// The refusal of a format number that is not listed.
const UNKNOWN_FORMAT: u32 = 255;

// What a caller's format number means.
#[tactic(auto, unfolding(crate::specs::Interface::format_at, crate::specs::Interface::formats))]
fn format_at(format: u32) -> Option<BmpPixelFormat>
    ensures { result ≡ format_at format }
{
    match format {
        0 => Some(BmpPixelFormat::Rgba),
        1 => Some(BmpPixelFormat::Rgb24),
        2 => Some(BmpPixelFormat::Bgra),
        3 => Some(BmpPixelFormat::Bgr24),
        4 => Some(BmpPixelFormat::Rgb555),
        5 => Some(BmpPixelFormat::Rgb565),
        6 => Some(BmpPixelFormat::Pal8),
        7 => Some(BmpPixelFormat::Indexed4),
        8 => Some(BmpPixelFormat::Indexed2),
        9 => Some(BmpPixelFormat::Indexed1),
        _ => None,
    }
}

fn source_of(source: BmpSource, format: BmpPixelFormat) -> EncodeSource
    ensures { result ≡ source_of source format }
{
    EncodeSource {
        format,
        width: source.width,
        height: source.height,
        stride: source.stride as usize,
        has_palette: source.has_palette,
        has_icc: source.has_icc,
        has_linked_icc: source.has_linked_icc,
    }
}

fn options_of(options: BmpOptions, settings: BmpSettings) -> EncodeOptions
    ensures { result ≡ options_of options settings }
{
    let masks = options.bitfields_masks;
    let bitfields = BmpBitfields {
        bpp: options.bitfields_bpp,
        masks,
    };
    let endpoints = options.endpoints;
    let gamma = options.gamma;
    let calibrated_rgb = CalibratedRgb { endpoints, gamma };
    EncodeOptions {
        top_down: options.top_down,
        minimal_palette: options.minimal_palette,
        rle: options.rle,
        bitfields: options.has_bitfields.then_some(bitfields),
        embed_icc: options.embed_icc,
        rendering_intent: options.rendering_intent,
        calibrated_rgb: options.has_calibrated.then_some(calibrated_rgb),
        limit: settings.limit,
        x_pels_per_meter: settings.x_pels_per_meter,
        y_pels_per_meter: settings.y_pels_per_meter,
    }
}

// The settings of a call that names none.
fn default_settings() -> BmpSettings
    ensures { result ≡ default_settings }
{
    BmpSettings {
        limit: MAX_FILE,
        x_pels_per_meter: PELS_PER_METER,
        y_pels_per_meter: PELS_PER_METER,
    }
}

// A refusal as numbers.
fn refused(number: u32) -> BmpAnswer
    ensures { result ≡ refused_with number }
{
    BmpAnswer {
        bytes: 0,
        refusal: number,
        format: 0,
    }
}

// An answer of the writing call as numbers.
fn encode_answer(answer: Result<Encoded, Refusal>) -> BmpAnswer
    ensures { result ≡ encoded_answer answer }
{
    match answer {
        Ok(file) => BmpAnswer {
            bytes: file.bytes as u64,
            refusal: 0,
            format: file.format.number(),
        },
        Err(why) => refused(why.number()),
    }
}

fn bound_answer(answer: Result<usize, Refusal>) -> BmpAnswer
    ensures { result ≡ bound_answer answer }
{
    match answer {
        Ok(bytes) => BmpAnswer {
            bytes: bytes as u64,
            refusal: 0,
            format: 0,
        },
        Err(why) => refused(why.number()),
    }
}

// Appends the file at the offset of `out`, within the settings' limit, or changes nothing and says why.
#[unsafe(no_mangle)]
pub extern "C" fn bmp_encode_into_with<'a>(
    source: BmpSource,
    options: BmpOptions,
    settings: BmpSettings,
    plane: &[u8],
    palette: &[u8],
    icc: &'a [u8],
    linked_icc: &'a [u8],
    out: &mut [u8],
    offset: usize,
) -> BmpAnswer
    ensures { EncodePromise (format_at source.format) source options settings plane.now palette.now icc.now linked_icc.now offset out.old out.new result }
{
    let Some(format) = format_at(source.format) else {
        return refused(UNKNOWN_FORMAT);
    };
    let src = source_of(source, format);
    let chosen = options_of(options, settings);
    let answer = encode_into(src, chosen, plane, palette, icc, linked_icc, out, offset);
    encode_answer(answer)
}

// The same with the default settings.
#[unsafe(no_mangle)]
pub extern "C" fn bmp_encode_into<'a>(
    source: BmpSource,
    options: BmpOptions,
    plane: &[u8],
    palette: &[u8],
    icc: &'a [u8],
    linked_icc: &'a [u8],
    out: &mut [u8],
    offset: usize,
) -> BmpAnswer
    ensures { EncodePromise (format_at source.format) source options default_settings plane.now palette.now icc.now linked_icc.now offset out.old out.new result }
{
    let settings = default_settings();
    bmp_encode_into_with(
        source, options, settings, plane, palette, icc, linked_icc, out, offset,
    )
}

// As `bmp_encode_into_with`, and `starts` gets the place in the file of each stored row's first byte, in stored order.
#[unsafe(no_mangle)]
pub extern "C" fn bmp_encode_with_starts<'a>(
    source: BmpSource,
    options: BmpOptions,
    settings: BmpSettings,
    plane: &[u8],
    palette: &[u8],
    icc: &'a [u8],
    linked_icc: &'a [u8],
    out: &mut [u8],
    offset: usize,
    starts: &mut [u64],
) -> BmpAnswer
    ensures { StartsPromise (format_at source.format) source options settings plane.now palette.now icc.now linked_icc.now offset out.old out.new starts.old starts.new result }
{
    let Some(format) = format_at(source.format) else {
        return refused(UNKNOWN_FORMAT);
    };
    let src = source_of(source, format);
    let chosen = options_of(options, settings);
    let answer = encode_with_starts(
        src, chosen, plane, palette, icc, linked_icc, out, offset, starts,
    );
    encode_answer(answer)
}

// How many bytes `bmp_encode_into_with` asks for.
#[unsafe(no_mangle)]
pub extern "C" fn bmp_encoded_size_bound_with<'a>(
    source: BmpSource,
    options: BmpOptions,
    settings: BmpSettings,
    plane: &[u8],
    palette: &[u8],
    icc: &'a [u8],
    linked_icc: &'a [u8],
) -> BmpAnswer
    ensures { BoundPromise (format_at source.format) source options settings plane.now palette.now icc.now linked_icc.now result }
{
    let Some(format) = format_at(source.format) else {
        return refused(UNKNOWN_FORMAT);
    };
    let src = source_of(source, format);
    let chosen = options_of(options, settings);
    let answer = encoded_size_bound(src, chosen, plane, palette, icc, linked_icc);
    bound_answer(answer)
}

// The same with the default settings.
#[unsafe(no_mangle)]
pub extern "C" fn bmp_encoded_size_bound<'a>(
    source: BmpSource,
    options: BmpOptions,
    plane: &[u8],
    palette: &[u8],
    icc: &'a [u8],
    linked_icc: &'a [u8],
) -> BmpAnswer
    ensures { BoundPromise (format_at source.format) source options default_settings plane.now palette.now icc.now linked_icc.now result }
{
    let settings = default_settings();
    bmp_encoded_size_bound_with(source, options, settings, plane, palette, icc, linked_icc)
}

// 0, or 6 to 10.
#[unsafe(no_mangle)]
pub extern "C" fn bmp_check_masks(bpp: u16, red: u32, green: u32, blue: u32, alpha: u32) -> u32
    ensures { result ≡ first_number (bitfields_rows bpp (red ∷ green ∷ blue ∷ alpha ∷ [])) }
{
    let masks = [red, green, blue, alpha];
    match validate(bpp, masks) {
        Ok(()) => 0,
        Err(why) => why.number(),
    }
}

// 32 bytes.
#[repr(C)]
#[derive(Clone, Copy)]
pub struct BmpReading {
    // Where the profile lies in the file; both are 0 where it is empty.
    pub profile_at: u64,
    pub profile_bytes: u64,
    // 0, or 17, 18, 15 or 19; then all else is 0.
    pub refusal: u32,
    pub width: u32,
    pub height: u32,
    pub depth: u32,
}

// 40 bytes.
#[repr(C)]
#[derive(Clone, Copy)]
pub struct BmpReadingSizes {
    // What the three lent buffers must have.
    pub head_bytes: u64,
    pub table_bytes: u64,
    pub cell_numbers: u64,
    // 0, 17 or 18; then all else is 0.
    pub refusal: u32,
    pub width: u32,
    pub height: u32,
    pub depth: u32,
}

// An answer of the reader as numbers.
fn reading_answer(answer: Result<Reading, ReadRefusal>) -> BmpReading
    ensures { result ≡ reading_answer (answered answer) }
{
    match answer {
        Ok(reading) => BmpReading {
            profile_at: reading.profile_at as u64,
            profile_bytes: reading.profile_bytes as u64,
            refusal: 0,
            width: reading.width,
            height: reading.height,
            depth: reading.depth,
        },
        Err(why) => BmpReading {
            profile_at: 0,
            profile_bytes: 0,
            refusal: why.number(),
            width: 0,
            height: 0,
            depth: 0,
        },
    }
}

fn sizes_answer(answer: Result<ReadingSizes, ReadRefusal>) -> BmpReadingSizes
    ensures { result ≡ sizes_answer (sizes_answered answer) }
{
    match answer {
        Ok(sizes) => BmpReadingSizes {
            head_bytes: sizes.head_bytes as u64,
            table_bytes: sizes.table_bytes as u64,
            cell_numbers: sizes.cell_numbers as u64,
            refusal: 0,
            width: sizes.width,
            height: sizes.height,
            depth: sizes.depth,
        },
        Err(why) => BmpReadingSizes {
            head_bytes: 0,
            table_bytes: 0,
            cell_numbers: 0,
            refusal: why.number(),
            width: 0,
            height: 0,
            depth: 0,
        },
    }
}

// Reads a file into the lent buffers, or changes nothing and says why.
#[unsafe(no_mangle)]
pub extern "C" fn bmp_read(
    file: &[u8],
    head: &mut [u8],
    table: &mut [u8],
    cells: &mut [u32],
) -> BmpReading
    ensures { ReadPromise file.now head.old table.old cells.old head.new table.new cells.new result }
{
    let answer = read(file, head, table, cells);
    reading_answer(answer)
}

// How long the buffers must be that `bmp_read` is lent.
#[unsafe(no_mangle)]
pub extern "C" fn bmp_read_sizes(file: &[u8]) -> BmpReadingSizes
    ensures { result ≡ sizes_answer (sizes_for (first_applying (open_rows file.now)) file.now) }
{
    let answer = read_sizes(file);
    sizes_answer(answer)
}

// Reads the row that begins at a place of the file into `cells` and answers 0; or changes nothing and answers 17, 18, 15
// or 19.
#[unsafe(no_mangle)]
pub extern "C" fn bmp_read_row(file: &[u8], start: u64, cells: &mut [u32]) -> u32
    ensures { ReadRow file.now start cells.old cells.new result }
{
    match read_row(file, start, cells) {
        Ok(()) => 0,
        Err(why) => why.number(),
    }
}

// Paints the quotes of two lists into the plane, an index a cell, and answers 0; or changes nothing and answers 15, 22 or
// 23.
#[unsafe(no_mangle)]
pub extern "C" fn bmp_shade_quotes(
    edges: &[f64],
    lows: &[f64],
    highs: &[f64],
    plane: &mut [u8],
) -> u32
    ensures { Shaded edges.now lows.now highs.now plane.old plane.new result }
{
    match shade_quotes(edges, lows, highs, plane) {
        Ok(()) => 0,
        Err(why) => why.number(),
    }
}
