// 17 and 18: what the head says that the writer never writes, and what lies outside the file.
ghost use Rattle.std.specs.Prelude.{◌≡◌, false, cond, ◌||◌, ◌^◌, ◌<◌, eqb, length};
ghost use Rattle.leaves.specs.Refusals.{first_applying};
ghost use Rattle.format.specs.Readers.{fields_of, dword_at};
ghost use Rattle.reader.specs.Fields.{fields_in};
ghost use Rattle.reader.specs.Numbers.{has_profile, profile_bytes_of, profile_at_of};
ghost use Rattle.reader.specs.Refusals.{strange_sizes, strange_kind, strange_masks, masks_end, never_written, head_outside, outside_file, is_coded, answer_number, open_rows};

use crate::fields::{HeadFields, dword_at, full_table, word_at};
use crate::refusal::ReadRefusal;
use leaves::bitfields::validate;
use leaves::types::{
    BI_ALPHABITFIELDS, BI_BITFIELDS, BI_RGB, BI_RLE4, BI_RLE8, BITMAPINFOHEADER_SIZE,
    BITMAPV4HEADER_SIZE, BITMAPV5HEADER_SIZE, PROFILE_EMBEDDED, PROFILE_LINKED, row_stride,
};

// Mark, header size, width and height.
fn strange_sizes(n: usize, mark: u32, t: HeadFields) -> bool
    ensures { result ≡ strange_sizes n mark (fields_in t) }
{
    let size = t.header_size;
    let width = t.width;
    (n >= 2) & (mark != 0x4D42)
        | (n >= 18)
            & !((size == BITMAPINFOHEADER_SIZE)
                | (size == BITMAPV4HEADER_SIZE)
                | (size == BITMAPV5HEADER_SIZE))
        | (n >= 22) & ((width == 0) | (width >= 0x8000_0000))
        | (n >= 26) & (t.height == 0)
}

// Whether the pixels are a stream.
pub(crate) fn is_coded(compression: u32) -> bool
    ensures { result ≡ is_coded compression }
{
    (compression == BI_RLE8) | (compression == BI_RLE4)
}

fn has_masks(compression: u32) -> bool
    ensures { result ≡ (eqb compression 3 || eqb compression 6) }
{
    (compression == BI_BITFIELDS) | (compression == BI_ALPHABITFIELDS)
}

// Depth, compression, the two together, a stream's height and the count of colours.
fn strange_kind(n: usize, t: HeadFields) -> bool
    ensures { result ≡ strange_kind n (fields_in t) }
{
    let d = t.depth;
    let c = t.compression;
    let full = full_table(d);
    (n >= 30) & !((d == 1) | (d == 2) | (d == 4) | (d == 8) | (d == 16) | (d == 24) | (d == 32))
        | (n >= 34)
            & !((c == BI_RGB)
                | (c == BI_RLE8)
                | (c == BI_RLE4)
                | (c == BI_BITFIELDS)
                | (c == BI_ALPHABITFIELDS))
        | (n >= 34)
            & !((c == BI_RGB)
                | (c == BI_RLE8) & (d == 8)
                | (c == BI_RLE4) & (d == 4)
                | has_masks(c) & ((d == 16) | (d == 32)))
        | (n >= 34) & is_coded(c) & (t.height >= 0x8000_0000)
        | (n >= 50) & (d <= 8) & (t.colours > full)
}

fn masks_end(compression: u32) -> usize
    ensures { result ≡ masks_end compression }
{
    if compression == BI_ALPHABITFIELDS {
        return 70;
    }
    66
}

// The mask of alpha, which only compression 6 has.
pub(crate) fn alpha_mask(file: &[u8], compression: u32) -> u32
    ensures { result ≡ cond (eqb compression 6) (dword_at file.now 66) 0 }
{
    if compression == BI_ALPHABITFIELDS {
        return dword_at(file, 66);
    }
    0
}

// The masks, where they are there. The pairing is known to be one that is written, so 6 is none of the refusals.
fn strange_masks(file: &[u8], t: HeadFields) -> bool
    requires { strange_kind (length file.now) (fields_in t) ≡ false }
    ensures { result ≡ strange_masks file.now t.compression t.depth }
{
    let c = t.compression;
    if !has_masks(c) {
        return false;
    }
    if file.len() < masks_end(c) {
        return false;
    }
    let red = dword_at(file, 54);
    let green = dword_at(file, 58);
    let blue = dword_at(file, 62);
    let alpha = alpha_mask(file, c);
    validate(t.depth, [red, green, blue, alpha]).is_err()
}

// 17.
pub(crate) fn never_written(file: &[u8], t: HeadFields) -> bool
    requires { fields_in t ≡ fields_of file.now }
    ensures { result ≡ never_written file.now }
{
    let n = file.len();
    if strange_sizes(n, word_at(file, 0), t) {
        return true;
    }
    if strange_kind(n, t) {
        return true;
    }
    strange_masks(file, t)
}

fn has_profile(file: &[u8], t: HeadFields) -> bool
    requires { fields_in t ≡ fields_of file.now }
    ensures { result ≡ has_profile file.now }
{
    let space = dword_at(file, 70);
    (t.header_size == BITMAPV5HEADER_SIZE)
        & ((space == PROFILE_LINKED) | (space == PROFILE_EMBEDDED))
}

pub(crate) fn profile_bytes(file: &[u8], t: HeadFields) -> u32
    requires { fields_in t ≡ fields_of file.now }
    ensures { result ≡ profile_bytes_of file.now }
{
    if has_profile(file, t) {
        return dword_at(file, 130);
    }
    0
}

// Where the profile lies in the file, which counts from the header's start; 0 for an empty one.
pub(crate) fn profile_at(file: &[u8], bytes: u32) -> usize
    requires { bytes ≡ profile_bytes_of file.now }
    ensures { (result ≡ profile_at_of file.now) × (result < 2 ^ 33) }
{
    if bytes == 0 {
        return 0;
    }
    14 + dword_at(file, 126) as usize
}

// Whether a byte of header, masks or table lies outside a file of n bytes.
pub(crate) fn head_outside(n: usize, t: HeadFields) -> bool
    ensures { result ≡ head_outside n (fields_in t) }
{
    let c = t.compression;
    let head = 14 + t.header_size as usize;
    let table = 4 * t.table_count() as usize;
    (n < 54) | (n < head) | has_masks(c) & (n < masks_end(c)) | (n < head + table)
}

// 18, of a file that has what the writer writes.
fn outside_file(file: &[u8], t: HeadFields) -> bool
    requires fields_read { fields_in t ≡ fields_of file.now }
    requires not_17 { never_written file.now ≡ false }
    ensures { result ≡ outside_file file.now }
{
    let n = file.len();
    if head_outside(n, t) {
        return true;
    }
    let rows = t.offset as usize + t.shown_height() as usize * row_stride(t.width, t.depth);
    let profile = profile_bytes(file, t);
    let profile_end = profile_at(file, profile) + profile as usize;
    !is_coded(t.compression) & (n < rows) | (n < profile_end)
}

// 17 and 18.
pub(crate) fn check_open(file: &[u8], t: HeadFields) -> Result<(), ReadRefusal>
    requires { fields_in t ≡ fields_of file.now }
    ensures { answer_number result ≡ first_applying (open_rows file.now) }
{
    if never_written(file, t) {
        return Err(ReadRefusal::NeverWritten);
    }
    if outside_file(file, t) {
        return Err(ReadRefusal::OutsideFile);
    }
    Ok(())
}
