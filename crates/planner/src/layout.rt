// What a file looks like, decided once for each call (the Rust's Head, Rows and the choices of Plan::new).
ghost use Rattle.std.specs.Prelude.{◌≡◌, true, not, cond, ◌&&◌, ℕ, ◌+◌, ◌*◌, ◌<◌, ◌≤◌, length, get_or, None, is_some};
ghost use Rattle.leaves.specs.Formats.{bits_per_pixel};
ghost use Rattle.leaves.specs.Masks.{is_one_run, has_alpha_mask};
ghost use Rattle.leaves.specs.Options.{bitfields_in};
ghost use Rattle.format.specs.Layout.{mode_of, is_profiled, is_plain, tail_in, plain_pack, mask_pack, table_entries, header_size_of, long_masks, head_rest, head_len, plain_compression, mask_format, coding_at, coded, layout_of};

use format::layout::{Layout, Mode};
use leaves::bitfields::BmpBitfields;
use leaves::checks::profile_mode;
use leaves::encoder::{
    EncodeSource, EncodedBmpFormat, RGB565_MASKS_V5, RGBA32_ALPHA_MASK_V4_V5, plain_token,
    written_palette_entries,
};
use leaves::image::BmpPixelFormat;
use leaves::options::EncodeOptions;
use leaves::types::{
    BI_BITFIELDS, BI_RGB, BITMAPINFOHEADER_SIZE, BITMAPV4HEADER_SIZE, BITMAPV5HEADER_SIZE,
};
use rows::masks::MaskLayout;
use rows::pack::RowPack;
use rows::rle::Rle;

// The mode that a call asks for.
pub fn mode_of(src: EncodeSource, options: EncodeOptions) -> Mode
    ensures { result ≡ mode_of src options }
{
    if options.bitfields.is_some() {
        return Mode::Masked;
    }
    if options.calibrated_rgb.is_some() {
        return Mode::Calibrated;
    }
    if profile_mode(src.has_linked_icc, src.has_icc, options.embed_icc) {
        return Mode::Profiled;
    }
    Mode::Plain
}

fn is_profiled(mode: Mode) -> bool
    ensures { result ≡ is_profiled mode }
{
    matches!(mode, Mode::Profiled)
}

fn is_plain(mode: Mode) -> bool
    ensures { result ≡ is_plain mode }
{
    matches!(mode, Mode::Plain)
}

// The profile that becomes the tail: one of the two lent slices, or an empty part.
pub(crate) fn tail<'a>(mode: Mode, linked: bool, icc: &'a [u8], linked_icc: &'a [u8]) -> &'a [u8]
    ensures { result.now ≡ tail_in mode linked icc.now linked_icc.now }
{
    if is_profiled(mode) {
        if linked {
            return linked_icc;
        }
        return icc;
    }
    &icc[0..0]
}

// How the rows of a source are stored without masks.
fn plain_pack(format: BmpPixelFormat) -> RowPack
    ensures { result ≡ plain_pack format }
{
    match format {
        BmpPixelFormat::Rgba => RowPack::Bgra32 { bgr: false },
        BmpPixelFormat::Rgb24 => RowPack::Bgr24 { bgr: false },
        BmpPixelFormat::Bgra => RowPack::Bgra32 { bgr: true },
        BmpPixelFormat::Bgr24 => RowPack::Bgr24 { bgr: true },
        BmpPixelFormat::Rgb555 => RowPack::Words16,
        BmpPixelFormat::Rgb565 => RowPack::Words16,
        BmpPixelFormat::Pal8 => RowPack::Indexed { bpp: 8 },
        BmpPixelFormat::Indexed4 => RowPack::Indexed { bpp: 4 },
        BmpPixelFormat::Indexed2 => RowPack::Indexed { bpp: 2 },
        BmpPixelFormat::Indexed1 => RowPack::Indexed { bpp: 1 },
    }
}

// How they are stored with masks.
fn mask_pack(format: BmpPixelFormat, bpp: u16, masks: [u32; 4]) -> RowPack
    requires { (k : ℕ) → k < 4 → is_one_run (get_or masks k 0) ≡ true }
    ensures { result ≡ mask_pack format bpp masks }
{
    let in_bpp = format.bytes_per_pixel();
    let bgr = format.is_blue_first();
    let layout = MaskLayout::new(bpp, masks);
    RowPack::Masks {
        in_bpp,
        bgr,
        layout,
    }
}

// biSize.
fn header_size(mode: Mode, format: BmpPixelFormat) -> u32
    ensures { result ≡ header_size_of mode format }
{
    match mode {
        Mode::Masked => BITMAPINFOHEADER_SIZE,
        Mode::Calibrated => BITMAPV4HEADER_SIZE,
        Mode::Profiled => BITMAPV5HEADER_SIZE,
        Mode::Plain => {
            if format.is_rgb565() {
                return BITMAPV4HEADER_SIZE;
            }
            BITMAPINFOHEADER_SIZE
        }
    }
}

// The masks in a 108- or 124-byte header.
pub(crate) fn long_masks(format: BmpPixelFormat) -> [u32; 4]
    ensures { result ≡ long_masks format }
{
    match format {
        BmpPixelFormat::Rgba | BmpPixelFormat::Bgra => RGBA32_ALPHA_MASK_V4_V5,
        BmpPixelFormat::Rgb565 => RGB565_MASKS_V5,
        _ => [0; 4],
    }
}

// biCompression of rows stored without masks.
fn plain_compression(format: BmpPixelFormat) -> u32
    ensures { result ≡ plain_compression format }
{
    if format.is_rgb565() {
        return BI_BITFIELDS;
    }
    BI_RGB
}

// The format answered for rows stored with masks.
fn mask_format(bitfields: BmpBitfields) -> EncodedBmpFormat
    ensures { result ≡ mask_format bitfields.masks }
{
    if bitfields.has_alpha() {
        return EncodedBmpFormat::AlphaBitfields;
    }
    EncodedBmpFormat::Bitfields
}

// The coding of indices of a depth, if it has one.
fn coding_at(bit_count: u16) -> Option<Rle>
    ensures { result ≡ coding_at bit_count }
{
    match bit_count {
        8 => Some(Rle::Rle8),
        4 => Some(Rle::Rle4),
        _ => None,
    }
}

// The stream that is tried.
fn coding_of(mode: Mode, format: BmpPixelFormat, rle: bool, top_down: bool) -> Option<Rle>
    ensures { result ≡ cond (is_plain mode && coded format && rle && not top_down) (coding_at (bits_per_pixel format)) None }
{
    if rle && !top_down && is_plain(mode) {
        return coding_at(format.bits_per_pixel());
    }
    None
}

// Entries of the colour table, for a palette of so many bytes.
fn table_entries(format: BmpPixelFormat, palette_bytes: usize, minimal_palette: bool) -> usize
    ensures { (result ≡ table_entries format palette_bytes minimal_palette) × (result ≤ 256) }
{
    if format.is_indexed() {
        let bpp = format.bits_per_pixel();
        return written_palette_entries(bpp, palette_bytes / 4, minimal_palette);
    }
    0
}

// All that source and options decide.
pub(crate) fn layout_of(
    mode: Mode,
    src: EncodeSource,
    options: EncodeOptions,
    palette_bytes: usize,
) -> Layout
    requires mode_chosen { mode ≡ mode_of src options }
    requires masks_checked { is_some options.bitfields ≡ true → (k : ℕ) → k < 4 → is_one_run (get_or (bitfields_in options).masks k 0) ≡ true }
    ensures { result ≡ layout_of src options palette_bytes }
{
    let format = src.format;
    let header_size = header_size(mode, format);
    let entries = table_entries(format, palette_bytes, options.minimal_palette);
    let coding = coding_of(mode, format, options.rle, options.top_down);
    if let Some(bitfields) = options.bitfields {
        let pack = mask_pack(format, bitfields.bpp, bitfields.masks);
        let written = mask_format(bitfields);
        return Layout {
            mode,
            header_size,
            bit_count: bitfields.bpp,
            entries,
            coding,
            pack,
            compression: bitfields.compression(),
            format: written,
        };
    }
    let pack = plain_pack(format);
    let written = plain_token(format);
    Layout {
        mode,
        header_size,
        bit_count: format.bits_per_pixel(),
        entries,
        coding,
        pack,
        compression: plain_compression(format),
        format: written,
    }
}

// Bytes of the masks that stand behind a 40-byte header.
fn mask_bytes(options: EncodeOptions) -> usize
    ensures { result ≡ cond (is_some options.bitfields) (cond (has_alpha_mask (bitfields_in options).masks) 16 12) 0 }
{
    match options.bitfields {
        Some(bitfields) => { if bitfields.has_alpha() { 16 } else { 12 } }
        None => 0,
    }
}

// Bytes before the pixels.
pub(crate) fn head_len(
    layout: Layout,
    src: EncodeSource,
    options: EncodeOptions,
    palette_bytes: usize,
) -> usize
    requires { layout ≡ layout_of src options palette_bytes }
    ensures { (result ≡ head_len src options palette_bytes) × (result ≤ 1162) }
{
    14 + layout.header_size as usize + mask_bytes(options) + 4 * layout.entries
}
