// The agreed differences from the original.
use crate::answers::Answer;
use crate::head::dword;
use leaves::buffer::put_number;
use leaves::encoder::EncodedBmpFormat;
use leaves::options::EncodeOptions;

// The formats of RLE files, by their numbers.
fn is_rle(format: u32) -> bool {
    let rle8 = EncodedBmpFormat::Rle8;
    let rle4 = EncodedBmpFormat::Rle4;
    (format == rle8.number()) | (format == rle4.number())
}

// The formats of mask files.
fn is_masks(format: u32) -> bool {
    let three = EncodedBmpFormat::Bitfields;
    let four = EncodedBmpFormat::AlphaBitfields;
    (format == three.number()) | (format == four.number())
}

// biSizeImage of RLE files and mask files by the file's own numbers: its length less bfOffBits. What is too
// short to have them stays.
fn fill_image_size(format: u32, file: &mut [u8]) {
    let sized = is_rle(format) | is_masks(format);
    if !sized {
        return;
    }
    let offset = dword(file, 10) as usize;
    if file.len() < 54 || file.len() < offset {
        return;
    }
    let bytes = (file.len() - offset) % 0x1_0000_0000;
    put_number(file, 34, bytes as u32);
}

// biXPelsPerMeter and biYPelsPerMeter, where the original has 2835. What is too short to have them stays.
fn set_resolutions(pels: [u32; 2], file: &mut [u8]) {
    if file.len() < 54 {
        return;
    }
    put_number(file, 38, pels[0]);
    put_number(file, 42, pels[1]);
}

// The eight bits of a sample, repeated from the top down until n bits are full (document 02, A.4).
fn repeated(sample: u32, n: u32) -> u32 {
    let mut field = 0u32;
    for k in 0..n {
        let bit = sample >> (7 - k % 8) & 1;
        field = field << 1 | bit;
    }
    field
}

// A pixel with the channel of this mask fitted anew if it has more than 16 bits. In the original's file the
// sample is the top eight bits of the field.
fn refit(pixel: u32, mask: u32) -> u32 {
    let n = u32::count_ones(mask);
    if n <= 16 {
        return pixel;
    }
    let shift = u32::trailing_zeros(mask) % 32;
    let sample = (pixel & mask) >> shift >> (n - 8);
    pixel & !mask | repeated(sample, n) << shift
}

fn refit_channels(pixel: u32, masks: [u32; 4]) -> u32 {
    let with_red = refit(pixel, masks[0]);
    let with_green = refit(with_red, masks[1]);
    let with_blue = refit(with_green, masks[2]);
    refit(with_blue, masks[3])
}

// Fits the channels of more than 16 bits anew in all pixels, which go from bfOffBits to the file's end. Only 32
// bits a pixel have room for such a channel: pixels of 16 bits stay, two at a time. What is too short to have
// these numbers stays.
fn refit_wide_channels(file: &mut [u8], masks: [u32; 4]) {
    let at = dword(file, 10) as usize;
    if file.len() < 54 || file.len() < at {
        return;
    }
    for pixel in file[at..].as_chunks_mut::<4>().0 {
        *pixel = refit_channels(u32::from_le_bytes(*pixel), masks).to_le_bytes();
    }
}

// What is expected of a call for which the original gives `wanted` and this file. The image size of RLE files
// and mask files is filled in (document 02, A.2), the channels of more than 16 bits in mask files are fitted
// anew (document 02, A.4), and the two resolutions are the call's, whose bits are `pels` (document 02, A.5).
pub(crate) fn agreed(
    options: EncodeOptions,
    pels: [u32; 2],
    wanted: Answer,
    file: &mut [u8],
) -> Answer {
    if wanted.number != 0 {
        return wanted;
    }
    fill_image_size(wanted.format, file);
    set_resolutions(pels, file);
    if is_masks(wanted.format) {
        if let Some(fields) = options.bitfields {
            refit_wide_channels(file, fields.masks);
        }
    }
    wanted
}
