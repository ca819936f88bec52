// Formats by name: the layouts that are asked for, and what a file was written as.
ghost use Rattle.std.specs.Prelude.{◌≡◌, slice_get};
ghost use Rattle.leaves.specs.Formats.{written_name, written_names};
ghost use Rattle.leaves.specs.Texts.{joined};
ghost use Rattle.arguments.specs.Options.{formats, format_numbered};

use crate::words::{item, place_in};
use leaves::encoder::EncodedBmpFormat;
use leaves::image::BmpPixelFormat;

// The layouts in the order of their names.
const FORMATS: [BmpPixelFormat; 10] = [
    BmpPixelFormat::Rgba,
    BmpPixelFormat::Rgb24,
    BmpPixelFormat::Bgra,
    BmpPixelFormat::Bgr24,
    BmpPixelFormat::Rgb555,
    BmpPixelFormat::Rgb565,
    BmpPixelFormat::Indexed4,
    BmpPixelFormat::Indexed2,
    BmpPixelFormat::Indexed1,
    BmpPixelFormat::Pal8,
];

// The layout that is so called.
pub(crate) fn format_called(name: &[u8]) -> Option<BmpPixelFormat>
    ensures { result ≡ slice_get formats (format_numbered name.now) }
{
    let names = b"rgba,rgb24,bgra,bgr24,rgb555,rgb565,indexed4,indexed2,indexed1,pal8";
    let place = place_in(names, name, true)?;
    Some(FORMATS[place])
}

// What a format that a file was written as is called, out of the names of all.
pub fn written_name<'a>(names: &'a [u8], format: EncodedBmpFormat) -> &'a [u8]
    requires { names.now ≡ joined 44 written_names }
    ensures { result.now ≡ written_name format }
{
    item(names, format.number() as usize, b',')
}
