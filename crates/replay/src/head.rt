// A record's head: the words of a call and of what is expected of it (bench/replay/README.md lists them).
use leaves::bitfields::BmpBitfields;
use leaves::encoder::EncodeSource;
use leaves::image::BmpPixelFormat;
use leaves::options::{CalibratedRgb, EncodeOptions};

// The words of a head.
pub(crate) const WORDS: usize = 41;

// The byte at a place; 0 past the end.
fn byte_at(bytes: &[u8], at: usize) -> u8 {
    bytes.get(at).copied().unwrap_or(0)
}

// The four bytes at a place among the first 2^32, low byte first; 0 past the end.
pub(crate) fn dword(bytes: &[u8], at: u32) -> u32 {
    let place = at as usize;
    u32::from_le_bytes([
        byte_at(bytes, place),
        byte_at(bytes, place + 1),
        byte_at(bytes, place + 2),
        byte_at(bytes, place + 3),
    ])
}

// Word k; 0 past the end.
pub(crate) fn word(head: &[u8], k: usize) -> u32 {
    if k >= WORDS {
        return 0;
    }
    dword(head, 4 * k as u32)
}

// One of the flags of word 5.
fn has(head: &[u8], flag: u32) -> bool {
    word(head, 5) & flag != 0
}

// 32 bits as a signed number.
fn signed(bits: u32) -> i32 {
    i32::from_le_bytes(bits.to_le_bytes())
}

fn pixel_format(n: u32) -> BmpPixelFormat {
    match n {
        0 => BmpPixelFormat::Rgba,
        1 => BmpPixelFormat::Rgb24,
        2 => BmpPixelFormat::Bgra,
        3 => BmpPixelFormat::Bgr24,
        4 => BmpPixelFormat::Rgb555,
        5 => BmpPixelFormat::Rgb565,
        6 => BmpPixelFormat::Pal8,
        7 => BmpPixelFormat::Indexed4,
        8 => BmpPixelFormat::Indexed2,
        _ => BmpPixelFormat::Indexed1,
    }
}

pub(crate) fn source_of(head: &[u8]) -> EncodeSource {
    EncodeSource {
        format: pixel_format(word(head, 1)),
        width: word(head, 2),
        height: word(head, 3),
        stride: word(head, 4) as usize,
        has_palette: has(head, 1),
        has_icc: has(head, 2),
        has_linked_icc: has(head, 4),
    }
}

fn masks_of(head: &[u8]) -> BmpBitfields {
    let red = word(head, 7);
    let green = word(head, 8);
    let blue = word(head, 9);
    let alpha = word(head, 10);
    BmpBitfields {
        bpp: (word(head, 6) % 65536) as u16,
        masks: [red, green, blue, alpha],
    }
}

fn calibrated_of(head: &[u8]) -> CalibratedRgb {
    let mut endpoints = [0i32; 9];
    for k in 0..9 {
        endpoints[k] = signed(word(head, 12 + k));
    }
    let red = word(head, 21);
    let green = word(head, 22);
    let blue = word(head, 23);
    CalibratedRgb {
        endpoints,
        gamma: [red, green, blue],
    }
}

// The limit's 64 bits are two words, the low one first.
fn limit_of(head: &[u8]) -> u64 {
    word(head, 37) as u64 + 0x1_0000_0000 * (word(head, 38) as u64)
}

pub(crate) fn options_of(head: &[u8]) -> EncodeOptions {
    let bitfields = masks_of(head);
    let calibrated_rgb = calibrated_of(head);
    EncodeOptions {
        top_down: has(head, 8),
        minimal_palette: has(head, 16),
        rle: has(head, 32),
        bitfields: has(head, 128).then_some(bitfields),
        embed_icc: has(head, 64),
        rendering_intent: word(head, 11),
        calibrated_rgb: has(head, 256).then_some(calibrated_rgb),
        limit: limit_of(head),
        x_pels_per_meter: signed(word(head, 39)),
        y_pels_per_meter: signed(word(head, 40)),
    }
}
