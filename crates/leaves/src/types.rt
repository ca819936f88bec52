// Constants of the format and the row stride (the Rust's types.rs).
ghost use Rattle.std.specs.Prelude.{◌≡◌};
ghost use Rattle.leaves.specs.Sizes.{row_stride};

// 'BM', low byte first.
pub const BMP_MAGIC: u16 = 0x4D42;

// Bytes of each info header.
pub const BITMAPINFOHEADER_SIZE: u32 = 40;

pub const BITMAPV4HEADER_SIZE: u32 = 108;

pub const BITMAPV5HEADER_SIZE: u32 = 124;

// Values of biCompression.
pub const BI_RGB: u32 = 0;

pub const BI_RLE8: u32 = 1;

pub const BI_RLE4: u32 = 2;

pub const BI_BITFIELDS: u32 = 3;

pub const BI_ALPHABITFIELDS: u32 = 6;

// Values of bV5CSType.
pub const LCS_CALIBRATED_RGB: u32 = 0;

pub const LCS_S_RGB: u32 = 0x7352_4742;

pub const PROFILE_LINKED: u32 = 0x4C49_4E4B;

pub const PROFILE_EMBEDDED: u32 = 0x4D42_4544;

// The default of bV5Intent.
pub const LCS_GM_IMAGES: u32 = 4;

// The largest file that bfSize can record.
pub const MAX_FILE: u64 = 0xFFFF_FFFF;

// The default resolution, 72 dots an inch to the nearest pixel a metre.
pub const PELS_PER_METER: i32 = 2835;

// Bytes of a stored row: its bits rounded up to a multiple of 32.
pub fn row_stride(width: u32, bpp: u16) -> usize
    ensures { result ≡ row_stride width bpp }
{
    (width as usize * bpp as usize + 31) / 32 * 4
}
