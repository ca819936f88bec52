// Document 01's examples that are no M lines.
use crate::answers::{Answer, answered, show};
use crate::printing::hex_bytes;
use crate::reading::{count_file, is_read_back};
use arguments::words::part;
use leaves::encoder::EncodeSource;
use leaves::image::BmpPixelFormat;
use leaves::options::EncodeOptions;
use std::io;

fn picture(format: BmpPixelFormat, width: u32, height: u32, stride: usize) -> EncodeSource {
    EncodeSource {
        format,
        width,
        height,
        stride,
        has_palette: true,
        has_icc: false,
        has_linked_icc: false,
    }
}

fn minimal() -> EncodeOptions {
    let mut options = EncodeOptions::new();
    options.minimal_palette = true;
    options
}

// Both calls with an empty palette, appending to nothing. A file is counted and read back; where that fails,
// the line says so.
fn example(
    rt: &impl Print,
    src: EncodeSource,
    options: EncodeOptions,
    plane: &[u8],
    icc: &[u8],
    out: &mut [u8],
    files: &mut [u32],
) -> io::Result<Answer> {
    let none = [0u8; 0];
    let came = answered(src, options, plane, &none, icc, icc, out, 0);
    if came.number == 0 {
        let file = part(out, 0, came.bytes);
        let read_back = is_read_back(src, options, plane, &none, icc, icc, file);
        count_file(files, read_back);
        if !read_back {
            print!(rt; " (not read back)")?;
        }
    }
    Ok(came)
}

fn file_of(format: u32, bytes: usize, bound: usize) -> Answer {
    Answer {
        number: 0,
        format,
        bytes,
        bound_number: 0,
        bound,
    }
}

fn refused(number: u32) -> Answer {
    Answer {
        number,
        format: 0,
        bytes: 0,
        bound_number: number,
        bound: 0,
    }
}

// An answer with the bytes of the file that the example is about.
fn show_with(rt: &impl Print, a: Answer, bytes: &[u8]) -> io::Result<()> {
    show(rt, a)?;
    if !bytes.is_empty() {
        print!(rt; ", with")?;
    }
    hex_bytes(rt, bytes)
}

fn line(
    rt: &impl Print,
    wanted: Answer,
    wanted_bytes: &[u8],
    came: Answer,
    came_bytes: &[u8],
) -> io::Result<()> {
    print!(rt; ": expected ")?;
    show_with(rt, wanted, wanted_bytes)?;
    print!(rt; "; came ")?;
    show_with(rt, came, came_bytes)?;
    println!(rt)
}

pub(crate) fn four_by_one(rt: &impl Print, files: &mut [u32]) -> io::Result<()> {
    let mut out_space = [0u8; 128];
    let out: &mut [u8] = &mut out_space;
    let src = picture(BmpPixelFormat::Pal8, 4, 1, 4);
    print!(rt; "the 4 x 1 grid, stream 4, raw 4")?;
    let came = example(rt, src, minimal(), &[7u8; 4], &[0u8; 0], out, files)?;
    line(
        rt,
        file_of(4, 62, 72),
        &[7u8, 7, 7, 7],
        came,
        part(out, 58, 62),
    )
}

pub(crate) fn one_byte_short(rt: &impl Print, files: &mut [u32]) -> io::Result<()> {
    let mut out_space = [0u8; 128];
    let out: &mut [u8] = &mut out_space;
    let src = picture(BmpPixelFormat::Pal8, 4, 1, 6);
    print!(rt; "plane one byte short in its last row's padding")?;
    let came = example(rt, src, minimal(), &[7u8; 5], &[0u8; 0], out, files)?;
    line(rt, refused(12), &[0u8; 0], came, &[0u8; 0])
}

// 8 cells of 4 bits: stream 08 11 00 01, raw 11 11 11 11.
pub(crate) fn tie(rt: &impl Print, files: &mut [u32]) -> io::Result<()> {
    let mut out_space = [0u8; 128];
    let out: &mut [u8] = &mut out_space;
    let src = picture(BmpPixelFormat::Indexed4, 8, 1, 8);
    print!(rt; "RLE that ties with raw is not used")?;
    let came = example(rt, src, minimal(), &[1u8; 8], &[0u8; 0], out, files)?;
    line(
        rt,
        file_of(5, 62, 80),
        &[17u8, 17, 17, 17],
        came,
        part(out, 58, 62),
    )
}

// 19 and 3 have the same low four bits, so the row is one run.
pub(crate) fn cut_first(rt: &impl Print, files: &mut [u32]) -> io::Result<()> {
    let mut out_space = [0u8; 128];
    let out: &mut [u8] = &mut out_space;
    let src = picture(BmpPixelFormat::Indexed4, 9, 1, 9);
    print!(rt; "RLE4 cuts indices before comparing them")?;
    let came = example(
        rt,
        src,
        minimal(),
        &[19u8, 3, 19, 3, 19, 3, 19, 3, 19],
        &[0u8; 0],
        out,
        files,
    )?;
    line(
        rt,
        file_of(8, 62, 86),
        &[9u8, 51, 0, 1],
        came,
        part(out, 58, 62),
    )
}

// The plane has every cell, but not the last row's two bytes of padding.
pub(crate) fn last_row(rt: &impl Print, files: &mut [u32]) -> io::Result<()> {
    let mut out_space = [0u8; 128];
    let out: &mut [u8] = &mut out_space;
    let src = picture(BmpPixelFormat::Rgba, 1, 2, 6);
    print!(rt; "all bytes of the last source row are demanded")?;
    let came = example(rt, src, minimal(), &[7u8; 10], &[0u8; 0], out, files)?;
    line(rt, refused(12), &[0u8; 0], came, &[0u8; 0])
}

// 124 bytes of header and 4 of pixels: 128, where the file's start would give 142.
pub(crate) fn profile_place(rt: &impl Print, files: &mut [u32]) -> io::Result<()> {
    let mut out_space = [0u8; 256];
    let out: &mut [u8] = &mut out_space;
    let mut src = picture(BmpPixelFormat::Rgba, 1, 1, 4);
    src.has_icc = true;
    print!(rt; "the profile's place is counted from the info header")?;
    let came = example(rt, src, minimal(), &[7u8; 4], &[1u8, 2, 3], out, files)?;
    line(
        rt,
        file_of(0, 145, 145),
        &[128u8, 0, 0, 0],
        came,
        part(out, 126, 130),
    )
}

// Top-down, width 3 and height 2.
pub(crate) fn width_field(rt: &impl Print, files: &mut [u32]) -> io::Result<()> {
    let mut out_space = [0u8; 128];
    let out: &mut [u8] = &mut out_space;
    let mut options = minimal();
    options.top_down = true;
    let src = picture(BmpPixelFormat::Rgba, 3, 2, 12);
    print!(rt; "the width field is not negated")?;
    let came = example(rt, src, options, &[7u8; 24], &[0u8; 0], out, files)?;
    line(
        rt,
        file_of(0, 78, 78),
        &[3u8, 0, 0, 0, 254, 255, 255, 255],
        came,
        part(out, 18, 26),
    )
}
