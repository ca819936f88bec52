// The parts of the head as numbers in a row, and their writes (the Rust's header writers).
ghost use Rattle.std.specs.Prelude.{◌≡◌, ◌+◌, ◌*◌, ◌^◌, ◌≤◌, ◌<◌, length, get_or};
ghost use Rattle.std.specs.Int.{w32};
ghost use Rattle.std.proofs.Common.{of_z};
ghost use Rattle.leaves.specs.Lists.{cat};
ghost use Rattle.leaves.specs.Put.{put};
ghost use Rattle.format.specs.File.{table_entry};
ghost use Rattle.format.specs.Headers.{dwords, file_header, info_header, v4_fields, longs};
ghost use Rattle.format.specs.Layout.{mask_tail};
ghost use Rattle.planner.specs.Plans.{first_fields};

use leaves::buffer::{put_number, put_slice};
use leaves::types::BMP_MAGIC;

// What the two headers of every file hold, but for their constant fields.
#[derive(Clone, Copy)]
pub struct FirstFields {
    pub file_size: u32,
    pub pixel_offset: u32,
    pub header_size: u32,
    pub width: u32,
    // The height's 32 bits, negated for top-down.
    pub stored_height: u32,
    pub bit_count: u16,
    pub compression: u32,
    pub image_size: u32,
    pub x_pels: u32,
    pub y_pels: u32,
    pub clr_used: u32,
}

// DWORDs in a row.
pub(crate) fn put_dwords(buf: &mut [u8], at: usize, src: &[u32])
    requires src_len_bound { length src.now < 2 ^ 40 }
    requires src_in_bounds { at + 4 * length src.now ≤ length buf.old }
    ensures { buf.new ≡ put buf.old at (dwords src.now) }
{
    for i in 0..src.len() {
        put_number(buf, at + 4 * i, src[i]);
    }
}

// A LONG as its 32 bits.
pub(crate) fn long_bits(v: i32) -> u32
    ensures { result ≡ of_z w32 v }
{
    v.cast_unsigned()
}

// LONGs in a row.
fn put_longs(buf: &mut [u8], at: usize, src: &[i32])
    requires src_len_bound { length src.now < 2 ^ 40 }
    requires src_in_bounds { at + 4 * length src.now ≤ length buf.old }
    ensures { buf.new ≡ put buf.old at (dwords (longs src.now)) }
{
    for i in 0..src.len() {
        put_number(buf, at + 4 * i, long_bits(src[i]));
    }
}

// BITMAPFILEHEADER and BITMAPINFOHEADER, or the first 40 bytes of a longer header. After the two letters
// all is in DWORDs: planes and bit count are one, and so are the two reserved words.
pub(crate) fn write_first_fields(buf: &mut [u8], at: usize, h: FirstFields)
    requires { at + 54 ≤ length buf.old }
    ensures { buf.new ≡ put buf.old at (first_fields h) }
{
    put_number(buf, at, BMP_MAGIC);
    let planes_and_depth = 1 + 65536 * h.bit_count as u32;
    let fields = [
        h.file_size,
        0,
        h.pixel_offset,
        h.header_size,
        h.width,
        h.stored_height,
        planes_and_depth,
        h.compression,
        h.image_size,
        h.x_pels,
        h.y_pels,
        h.clr_used,
        0,
    ];
    put_dwords(buf, at + 2, &fields);
}

// BITMAPV4HEADER after its first 40 bytes.
pub(crate) fn write_v4_fields(
    buf: &mut [u8],
    at: usize,
    masks: [u32; 4],
    color_space: u32,
    endpoints: [i32; 9],
    gamma: [u32; 3],
)
    requires { at + 68 ≤ length buf.old }
    ensures { buf.new ≡ put buf.old at (v4_fields masks color_space (longs endpoints) gamma) }
{
    put_dwords(buf, at, &masks);
    put_number(buf, at + 16, color_space);
    put_longs(buf, at + 20, &endpoints);
    put_dwords(buf, at + 56, &gamma);
}

// The masks of mask mode, which stand behind a 40-byte header: three, or four with an alpha mask.
pub(crate) fn write_masks(buf: &mut [u8], at: usize, masks: [u32; 4])
    requires { at + length (mask_tail masks) ≤ length buf.old }
    ensures { buf.new ≡ put buf.old at (mask_tail masks) }
{
    let colours = [masks[0], masks[1], masks[2]];
    put_dwords(buf, at, &colours);
    let alpha = masks[3];
    if alpha != 0 {
        put_number(buf, at + 12, alpha);
    }
}

// The byte at a place, or 0 past the end.
fn byte_or_zero(bytes: &[u8], at: usize) -> u8
    ensures { result ≡ get_or bytes.now at 0 }
{
    bytes.get(at).copied().unwrap_or(0)
}

// RGBQUAD k of a palette.
fn table_entry(palette: &[u8], k: usize) -> [u8; 4]
    requires { k < 256 }
    ensures { result ≡ table_entry palette.now k }
{
    let blue = byte_or_zero(palette, k * 4 + 2);
    let green = byte_or_zero(palette, k * 4 + 1);
    let red = byte_or_zero(palette, k * 4);
    [blue, green, red, 0]
}

// The colour table.
pub(crate) fn write_color_table(buf: &mut [u8], at: usize, palette: &[u8], entries: usize)
    requires entries_bound { entries ≤ 256 }
    requires entries_in_bounds { at + 4 * entries ≤ length buf.old }
    ensures { buf.new ≡ put buf.old at (cat (table_entry palette.now) entries) }
{
    for k in 0..entries {
        let entry = table_entry(palette, k);
        put_slice(buf, at + k * 4, &entry);
    }
}
