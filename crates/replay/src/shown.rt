// What must be shown of a picture that was handed in (document 01, Cells), made from its plane and its palette
// by code that neither the writer nor the reader has, but for `quantise`.
use leaves::bitfields::quantise;
use leaves::encoder::EncodeSource;
use leaves::image::BmpPixelFormat;
use leaves::options::EncodeOptions;
use leaves::widening::widening_table;

// The byte at a place; 0 past the end.
pub(crate) fn byte_of(bytes: &[u8], at: usize) -> u8 {
    bytes.get(at).copied().unwrap_or(0)
}

// How many indices the file's depth has; 0 for direct colour.
pub(crate) fn index_count(format: BmpPixelFormat) -> u32 {
    match format {
        BmpPixelFormat::Pal8 => 256,
        BmpPixelFormat::Indexed4 => 16,
        BmpPixelFormat::Indexed2 => 4,
        BmpPixelFormat::Indexed1 => 2,
        _ => 0,
    }
}

// From a cell of the plane to the next.
pub(crate) fn bytes_each(format: BmpPixelFormat) -> usize {
    match format {
        BmpPixelFormat::Rgba => 4,
        BmpPixelFormat::Rgb24 => 3,
        BmpPixelFormat::Bgra => 4,
        BmpPixelFormat::Bgr24 => 3,
        BmpPixelFormat::Rgb555 => 2,
        BmpPixelFormat::Rgb565 => 2,
        _ => 1,
    }
}

fn plain_depth(format: BmpPixelFormat) -> u32 {
    match format {
        BmpPixelFormat::Rgba => 32,
        BmpPixelFormat::Rgb24 => 24,
        BmpPixelFormat::Bgra => 32,
        BmpPixelFormat::Bgr24 => 24,
        BmpPixelFormat::Rgb555 => 16,
        BmpPixelFormat::Rgb565 => 16,
        BmpPixelFormat::Pal8 => 8,
        BmpPixelFormat::Indexed4 => 4,
        BmpPixelFormat::Indexed2 => 2,
        BmpPixelFormat::Indexed1 => 1,
    }
}

pub(crate) fn depth_of(src: EncodeSource, options: EncodeOptions) -> u32 {
    if let Some(fields) = options.bitfields {
        return u32::from(fields.bpp);
    }
    let format = src.format;
    plain_depth(format)
}

fn has_profile(src: EncodeSource, options: EncodeOptions) -> bool {
    src.has_linked_icc | (src.has_icc & options.embed_icc)
}

// The bytes of the file header and the info header.
pub(crate) fn head_bytes(src: EncodeSource, options: EncodeOptions) -> usize {
    if has_profile(src, options) {
        return 138;
    }
    let format = src.format;
    let wider = matches!(format, BmpPixelFormat::Rgb565);
    if options.calibrated_rgb.is_some() | wider {
        return 122;
    }
    54
}

// The blob that stands behind the pixels.
pub(crate) fn tail_of<'a>(
    src: EncodeSource,
    options: EncodeOptions,
    icc: &'a [u8],
    linked_icc: &'a [u8],
) -> &'a [u8] {
    if src.has_linked_icc {
        return linked_icc;
    }
    if src.has_icc & options.embed_icc {
        return icc;
    }
    b""
}

// Entries of the colour table for a palette of so many bytes.
pub(crate) fn entries_of(format: BmpPixelFormat, minimal: bool, palette: usize) -> usize {
    let full = index_count(format) as usize;
    let given = palette / 4;
    if !minimal | (given >= full) {
        return full;
    }
    given.max(1)
}

// Byte k of a colour table: blue, green, red and 0 of an entry that is lent as red, green, blue and alpha.
pub(crate) fn table_byte(palette: &[u8], k: usize) -> u8 {
    let channel = k % 4;
    if channel > 2 {
        return 0;
    }
    byte_of(palette, k / 4 * 4 + (2 - channel))
}

// An index's low bits.
pub(crate) fn cut(index: u8, count: u32) -> u32 {
    if count == 0 {
        return 0;
    }
    u32::from(index) % count
}

#[derive(Drop)]
pub(crate) struct Colour {
    pub(crate) red: u32,
    pub(crate) green: u32,
    pub(crate) blue: u32,
    pub(crate) alpha: u32,
}

// The fields of a word from bits 10, 5 and 0.
fn fields_555(word: u32) -> Colour {
    Colour {
        red: word / 1024 % 32,
        green: word / 32 % 32,
        blue: word % 32,
        alpha: 0,
    }
}

// The fields of a word under F800, 07E0 and 001F.
fn fields_565(word: u32) -> Colour {
    Colour {
        red: word / 2048 % 32,
        green: word / 32 % 64,
        blue: word % 32,
        alpha: 0,
    }
}

// A sample fitted to a mask's count of ones; 0 under a zero mask.
fn fitted(sample: u8, mask: u32) -> u32 {
    if mask == 0 {
        return 0;
    }
    let table = widening_table();
    quantise(&table, sample, u32::count_ones(mask))
}

// The samples as they are, without alpha; in mask mode each fitted to its mask.
fn samples(options: EncodeOptions, red: u8, green: u8, blue: u8, alpha: u8) -> Colour {
    if let Some(fields) = options.bitfields {
        let masks = fields.masks;
        return Colour {
            red: fitted(red, masks[0]),
            green: fitted(green, masks[1]),
            blue: fitted(blue, masks[2]),
            alpha: fitted(alpha, masks[3]),
        };
    }
    Colour {
        red: u32::from(red),
        green: u32::from(green),
        blue: u32::from(blue),
        alpha: 0,
    }
}

fn word_of(low: u8, high: u8) -> u32 {
    u32::from(u16::from_le_bytes([low, high]))
}

// What must be shown of the cell of direct colour at a place of the plane. A missing alpha sample is 255.
pub(crate) fn colour_at(
    format: BmpPixelFormat,
    options: EncodeOptions,
    plane: &[u8],
    at: usize,
) -> Colour {
    let a = byte_of(plane, at);
    let b = byte_of(plane, at.saturating_add(1));
    let c = byte_of(plane, at.saturating_add(2));
    let d = byte_of(plane, at.saturating_add(3));
    match format {
        BmpPixelFormat::Rgba => samples(options, a, b, c, d),
        BmpPixelFormat::Rgb24 => samples(options, a, b, c, 255),
        BmpPixelFormat::Bgra => samples(options, c, b, a, d),
        BmpPixelFormat::Bgr24 => samples(options, c, b, a, 255),
        BmpPixelFormat::Rgb555 => fields_555(word_of(a, b)),
        _ => fields_565(word_of(a, b)),
    }
}
