// Cells of 16 and 32 bits fitted to masks (the Rust's MaskLayout in encoder.rs, section on pixel packing).
ghost use Rattle.std.specs.Prelude.{◌≡◌, ◌+◌, ◌*◌, ◌/◌, ◌<◌, ◌≤◌, true, false, ◌⊎◌, length, take, if◌then◌else◌, slice_index};
ghost use Rattle.leaves.specs.Bytes.{le32};
ghost use Rattle.leaves.specs.Lists.{cat, tab};
ghost use Rattle.leaves.specs.Masks.{ShiftLen};
ghost use Rattle.leaves.specs.Put.{put};
ghost use Rattle.leaves.specs.Sizes.{row_stride};
ghost use Rattle.leaves.specs.Widening.{Widens};
ghost use Rattle.rows.specs.declared.pack.RowPack.TheVariants.{Masks};
ghost use Rattle.rows.specs.StoredRows.{field, fields_of, mask_word, mask_cell, stored_row, LayoutOk, ShortOk};

use crate::exchange::pixel_word;
use leaves::bitfields::{MaskShiftLen, mask_shift_len, quantise};
use leaves::buffer::put_zeros;
use leaves::types::row_stride;

// A mask set resolved to each channel's place and length.
#[derive(Clone, Copy)]
pub struct MaskLayout {
    pub bpp: u16,
    pub r: MaskShiftLen,
    pub g: MaskShiftLen,
    pub b: MaskShiftLen,
    pub a: MaskShiftLen,
}

// A sample in its channel's place. A channel of no bits may have any shift, and adds nothing.
fn mask_field(table: &[u16], channel: MaskShiftLen, sample: u8) -> u32
    requires len_bound { channel.shift + channel.len ≤ 32 }
    requires widens { Widens table.now }
    ensures { result ≡ field channel sample }
{
    quantise(table, sample, channel.len) << (channel.shift % 32)
}

// The fields of a channel's 256 samples.
fn put_channel(table: &[u16], channel: MaskShiftLen, fields: &mut [u32], at: usize)
    requires len_bound { channel.shift + channel.len ≤ 32 }
    requires at_in_bounds { at + 256 ≤ length fields.old }
    requires widens { Widens table.now }
    ensures { fields.new ≡ put fields.old at (tab (field channel) 256) }
{
    for sample in 0..256 {
        fields[at + sample] = mask_field(table, channel, sample as u8);
    }
}

// The field of a sample whose channel's fields begin at a place.
fn field_of(fields: &[u32], first: usize, sample: u8) -> u32
    requires { first + 256 ≤ length fields.now }
    ensures { result ≡ slice_index fields.now (first + sample) }
{
    fields[first + sample as usize]
}

// A sample in the place of a channel of at most 8 bits. It has no branch and reads no table, and its
// shifts are those of all pixels, as vector code needs them.
fn short_field(channel: MaskShiftLen, sample: u32) -> u32
    requires sample_bound { sample < 256 }
    requires len_bound { channel.len ≤ 8 }
    requires channel_in_word { channel.shift + channel.len ≤ 32 }
    ensures { result ≡ field channel sample }
{
    (sample >> (8 - channel.len)) << (channel.shift % 32)
}

// Stores the low bytes of a word as a cell of 16 or 32 bits.
fn put_cell<const BYTES: usize>(word: u32, dst: &mut [u8], at: usize)
    requires bytes_bound { BYTES ≤ 4 }
    requires bytes_in_bounds { at + BYTES ≤ length dst.old }
    ensures { dst.new ≡ put dst.old at (take BYTES (le32 word)) }
{
    dst[at..at + BYTES].copy_from_slice(&word.to_le_bytes()[..BYTES]);
}

impl MaskLayout {
    pub fn new(bpp: u16, masks: [u32; 4]) -> Self
        ensures { (result.bpp ≡ bpp)
            × ShiftLen (slice_index masks 0) result.r.shift result.r.len
            × ShiftLen (slice_index masks 1) result.g.shift result.g.len
            × ShiftLen (slice_index masks 2) result.b.shift result.b.len
            × ShiftLen (slice_index masks 3) result.a.shift result.a.len }
    {
        let r = mask_shift_len(masks[0]);
        let g = mask_shift_len(masks[1]);
        let b = mask_shift_len(masks[2]);
        let a = mask_shift_len(masks[3]);
        MaskLayout { bpp, r, g, b, a }
    }

    // The fields of all samples, 256 for each byte of a pixel. Pixels are then packed without a test of
    // their channels' lengths.
    pub(crate) fn put_fields(self, bgr: bool, table: &[u16], fields: &mut [u32])
        requires layout_ok { LayoutOk self }
        requires fields_len { length fields.old ≡ 1024 }
        requires widens { Widens table.now }
        ensures { fields.new ≡ fields_of self bgr }
    {
        let layout = self.ordered(bgr);
        put_channel(table, layout.r, fields, 0);
        put_channel(table, layout.g, fields, 256);
        put_channel(table, layout.b, fields, 512);
        put_channel(table, layout.a, fields, 768);
    }

    // The word of pixel x of a row with red first.
    fn word(self, fields: &[u32], src: &[u8], in_bpp: usize, x: usize) -> u32
        requires known_size { (in_bpp ≡ 3) ⊎ (in_bpp ≡ 4) }
        requires in_bpp_in_bounds { x * in_bpp + in_bpp ≤ length src.now }
        requires fields_made { fields.now ≡ fields_of self false }
        ensures { result ≡ mask_word self in_bpp false src.now x }
    {
        let s = x * in_bpp;
        let alpha = if in_bpp == 4 { src[s + 3] } else { 255 };
        let r = field_of(fields, 0, src[s]);
        let g = field_of(fields, 256, src[s + 1]);
        let b = field_of(fields, 512, src[s + 2]);
        let a = field_of(fields, 768, alpha);
        r | g | b | a
    }

    // The cells of a row with red first, for channels of any length.
    fn long_cells<const BYTES: usize>(
        self,
        fields: &[u32],
        src: &[u8],
        in_bpp: usize,
        width: u32,
        dst: &mut [u8],
        at: usize,
    )
        requires layout_ok { LayoutOk self }
        requires depth { self.bpp ≡ BYTES * 8 }
        requires known_size { (in_bpp ≡ 3) ⊎ (in_bpp ≡ 4) }
        requires src_len { length src.now ≡ width * in_bpp }
        requires width_in_bounds { at + width * BYTES ≤ length dst.old }
        requires fields_made { fields.now ≡ fields_of self false }
        ensures { dst.new ≡ put dst.old at (cat (mask_cell self in_bpp false src.now) width) }
    {
        for x in 0..width as usize {
            let word = self.word(fields, src, in_bpp, x);
            put_cell::<BYTES>(word, dst, at + x * BYTES);
        }
    }

    // Whether pixels of so many bytes have alpha, and each channel has at most 8 bits.
    fn is_short(self, in_bpp: usize) -> bool
        ensures { result ≡ true → (in_bpp ≡ 4) × ShortOk self }
    {
        in_bpp == 4 && self.r.len.max(self.g.len).max(self.b.len).max(self.a.len) <= 8
    }

    // The layout with which pixels of this order are packed as if red came first.
    fn ordered(self, bgr: bool) -> Self
        ensures { (result.bpp ≡ self.bpp)
            × (result.r ≡ (if bgr then self.b else self.r))
            × (result.g ≡ self.g)
            × (result.b ≡ (if bgr then self.r else self.b))
            × (result.a ≡ self.a) }
    {
        if bgr {
            return MaskLayout {
                r: self.b,
                b: self.r,
                ..self
            };
        }
        self
    }

    // The word of a pixel of 4 bytes, red first, from the word of its bytes.
    fn short_word(self, pixel: u32) -> u32
        requires layout_ok { LayoutOk self }
        requires short_ok { ShortOk self }
        ensures { result ≡ mask_word self 4 false (le32 pixel) 0 }
    {
        let r = short_field(self.r, pixel % 256);
        let g = short_field(self.g, pixel / 256 % 256);
        let b = short_field(self.b, pixel / 256 / 256 % 256);
        let a = short_field(self.a, pixel / 256 / 256 / 256 % 256);
        r | g | b | a
    }

    // The cells of a row of pixels of 4 bytes, red first, where each channel has at most 8 bits.
    fn short_cells<const BYTES: usize>(self, src: &[u8], width: u32, dst: &mut [u8], at: usize)
        requires layout_ok { LayoutOk self }
        requires short_ok { ShortOk self }
        requires depth { self.bpp ≡ BYTES * 8 }
        requires src_len { length src.now ≡ width * 4 }
        requires width_in_bounds { at + width * BYTES ≤ length dst.old }
        ensures { dst.new ≡ put dst.old at (cat (mask_cell self 4 false src.now) width) }
    {
        for x in 0..width as usize {
            let word = self.short_word(pixel_word(src, x));
            put_cell::<BYTES>(word, dst, at + x * BYTES);
        }
    }

    // The cells of a row with red first.
    fn cells<const BYTES: usize>(
        self,
        fields: &[u32],
        src: &[u8],
        in_bpp: usize,
        width: u32,
        dst: &mut [u8],
        at: usize,
    )
        requires layout_ok { LayoutOk self }
        requires depth { self.bpp ≡ BYTES * 8 }
        requires known_size { (in_bpp ≡ 3) ⊎ (in_bpp ≡ 4) }
        requires src_len { length src.now ≡ width * in_bpp }
        requires width_in_bounds { at + width * BYTES ≤ length dst.old }
        requires fields_made { fields.now ≡ fields_of self false }
        ensures { dst.new ≡ put dst.old at (cat (mask_cell self in_bpp false src.now) width) }
    {
        if self.is_short(in_bpp) {
            self.short_cells::<BYTES>(src, width, dst, at);
        } else {
            self.long_cells::<BYTES>(fields, src, in_bpp, width, dst, at);
        }
    }

    // Cells of 16 or 32 bits, fitted to masks; the fields of all samples are lent.
    pub fn pack(
        self,
        fields: &[u32],
        src: &[u8],
        in_bpp: usize,
        bgr: bool,
        width: u32,
        dst: &mut [u8],
        at: usize,
    )
        requires layout_ok { LayoutOk self }
        requires known_size { (in_bpp ≡ 3) ⊎ (in_bpp ≡ 4) }
        requires src_len { length src.now ≡ width * in_bpp }
        requires bpp_in_bounds { at + row_stride width self.bpp ≤ length dst.old }
        requires fields_made { fields.now ≡ fields_of self bgr }
        ensures { dst.new ≡ put dst.old at (stored_row (Masks in_bpp bgr self) width src.now) }
    {
        let layout = self.ordered(bgr);
        if self.bpp == 16 {
            layout.cells::<2>(fields, src, in_bpp, width, dst, at);
        } else {
            layout.cells::<4>(fields, src, in_bpp, width, dst, at);
        }
        let filled = width as usize * (self.bpp as usize / 8);
        put_zeros(dst, at + filled, row_stride(width, self.bpp) - filled);
    }
}
