// How a source row becomes a stored row (the Rust's encoder.rs, section on pixel packing). Each packer
// writes one whole stored row, padding included, whatever the buffer held before.
ghost use Rattle.std.specs.Prelude.{◌≡◌, ◌+◌, ◌-◌, ◌*◌, ◌<◌, ◌≤◌, length};
ghost use Rattle.leaves.specs.Lists.{cat};
ghost use Rattle.leaves.specs.Put.{put};
ghost use Rattle.leaves.specs.Sizes.{row_stride};
ghost use Rattle.rows.specs.declared.pack.RowPack.TheVariants.{Bgra32, Bgr24, Words16};
ghost use Rattle.rows.specs.Starts.{noted};
ghost use Rattle.rows.specs.StoredRows.{padded, stored_row, pack_bits, pack_bytes, PackOk, FieldsOk, in_mask_mode, is_copied, row_of, source_row, stored_rows};

use crate::exchange::{exchange24, exchange32};
use crate::indices::pack_indices;
use crate::masks::MaskLayout;
use crate::starts::note_start;
use leaves::buffer::{put_slice, put_zeros};
use leaves::types::row_stride;
use leaves::widening::widening_table;

// How a source row becomes a stored row.
#[derive(Clone, Copy)]
pub enum RowPack {
    // 32-bit cells from 4-byte pixels; `bgr` where blue comes first already.
    Bgra32 {
        bgr: bool,
    },
    // 24-bit cells from 3-byte pixels.
    Bgr24 {
        bgr: bool,
    },
    // 16-bit words, copied.
    Words16,
    // One index byte a pixel, packed to 1, 2, 4 or 8 bits.
    Indexed {
        bpp: u16,
    },
    // Samples fitted to masks, from pixels of 3 or 4 bytes.
    Masks {
        in_bpp: usize,
        bgr: bool,
        layout: MaskLayout,
    },
}

// A row that is stored as it is, and zeros up to the stored row's length.
pub(crate) fn copy_row(src: &[u8], stored: usize, dst: &mut [u8], at: usize)
    requires src_len_bound { length src.now ≤ stored }
    requires stored_in_bounds { at + stored ≤ length dst.old }
    ensures { dst.new ≡ put dst.old at (padded stored src.now) }
{
    let n = src.len();
    put_slice(dst, at, src);
    put_zeros(dst, at + n, stored - n);
}

// The source row of the stored row s: rows are stored bottom first unless top-down. It is the part of the plane that starts
// at its own offset. As a method of a struct of plane, stride, bytes, height and order, which the loops over rows would pass
// on, it cost up to 22 % where a stream is counted and 0.9 ns a row of 20 bytes.
pub(crate) fn source_row(
    plane: &[u8],
    stride: usize,
    bytes: usize,
    height: usize,
    top_down: bool,
    s: usize,
) -> &[u8]
    requires s_bound { s < height }
    requires bytes_le_stride { bytes ≤ stride }
    requires height_in_bounds { stride * height ≤ length plane.now }
    ensures { result.now ≡ source_row plane.now stride bytes (row_of top_down height s) }
{
    let from = if top_down { s } else { height - 1 - s };
    let start = from * stride;
    &plane[start..start + bytes]
}

// All rows of a plane that are stored as they are. They have a loop of their own, because one that holds every row kind
// jumps by the kind at each row, and loads the constants of the others.
fn copy_rows(
    plane: &[u8],
    bytes: usize,
    stride: usize,
    stored: usize,
    height: usize,
    top_down: bool,
    dst: &mut [u8],
    at: usize,
    starts: &mut [u64],
    origin: usize,
)
    requires bytes_le_stride { bytes ≤ stride }
    requires bytes_le_stored { bytes ≤ stored }
    requires height_in_bounds { stride * height ≤ length plane.now }
    requires dst_in_bounds { at + stored * height ≤ length dst.old }
    requires origin_le_at { origin ≤ at }
    ensures dst_after { dst.new ≡ put dst.old at (cat (λ s. padded stored (source_row plane.now stride bytes (row_of top_down height s))) height) }
    ensures starts_after { starts.new ≡ noted (λ s. at - origin + s * stored) starts.old height }
{
    for s in 0..height {
        let o = at + s * stored;
        note_start(starts, s, o - origin);
        let src = source_row(plane, stride, bytes, height, top_down, s);
        copy_row(src, stored, dst, o);
    }
}

// 16-bit words, copied.
fn pack_words16(src: &[u8], width: u32, dst: &mut [u8], at: usize)
    requires src_len { length src.now ≡ width * 2 }
    requires width_in_bounds { at + row_stride width 16 ≤ length dst.old }
    ensures { dst.new ≡ put dst.old at (stored_row Words16 width src.now) }
{
    copy_row(src, row_stride(width, 16), dst, at);
}

// 24-bit cells: blue, green, red.
fn pack_bgr24(src: &[u8], bgr: bool, width: u32, dst: &mut [u8], at: usize)
    requires src_len { length src.now ≡ width * 3 }
    requires width_in_bounds { at + row_stride width 24 ≤ length dst.old }
    ensures { dst.new ≡ put dst.old at (stored_row (Bgr24 bgr) width src.now) }
{
    let stride = row_stride(width, 24);
    if bgr {
        copy_row(src, stride, dst, at);
        return;
    }
    let n = src.len();
    exchange24(src, width, dst, at);
    put_zeros(dst, at + n, stride - n);
}

// 32-bit cells: blue, green, red, alpha. Such a row has no padding.
fn pack_bgra32(src: &[u8], bgr: bool, width: u32, dst: &mut [u8], at: usize)
    requires src_len { length src.now ≡ width * 4 }
    requires width_in_bounds { at + row_stride width 32 ≤ length dst.old }
    ensures { dst.new ≡ put dst.old at (stored_row (Bgra32 bgr) width src.now) }
{
    if bgr {
        put_slice(dst, at, src);
        return;
    }
    exchange32(src, width, dst, at);
}

impl RowPack {
    // Bits of a pixel in the file.
    pub fn bits_per_pixel(self) -> u16
        ensures { result ≡ pack_bits self }
    {
        match self {
            RowPack::Bgra32 { .. } => 32,
            RowPack::Bgr24 { .. } => 24,
            RowPack::Words16 => 16,
            RowPack::Indexed { bpp } => bpp,
            RowPack::Masks { layout, .. } => layout.bpp,
        }
    }

    // Bytes of a pixel in the source.
    pub fn source_bytes(self) -> usize
        ensures { result ≡ pack_bytes self }
    {
        match self {
            RowPack::Bgra32 { .. } => 4,
            RowPack::Bgr24 { .. } => 3,
            RowPack::Words16 => 2,
            RowPack::Indexed { .. } => 1,
            RowPack::Masks { in_bpp, .. } => in_bpp,
        }
    }

    // Whether samples are fitted to masks.
    fn in_mask_mode(self) -> bool
        ensures { result ≡ in_mask_mode self }
    {
        matches!(self, RowPack::Masks { .. })
    }

    // Whether rows are stored as they are, with padding after them.
    fn is_copied(self) -> bool
        ensures { result ≡ is_copied self }
    {
        match self {
            RowPack::Bgra32 { bgr } | RowPack::Bgr24 { bgr } => bgr,
            RowPack::Words16 => true,
            RowPack::Indexed { bpp } => bpp == 8,
            RowPack::Masks { .. } => false,
        }
    }

    // Fills in what rows in mask mode read; others read nothing there.
    fn put_fields(self, fields: &mut [u32])
        requires pack_ok { PackOk self }
        requires fields_len { length fields.old ≡ 1024 }
        ensures { FieldsOk self fields.new }
    {
        if let RowPack::Masks { bgr, layout, .. } = self {
            layout.put_fields(bgr, &widening_table(), fields);
        }
    }

    // Writes the stored row of a source row.
    pub fn row(self, fields: &[u32], src: &[u8], width: u32, dst: &mut [u8], at: usize)
        requires pack_ok { PackOk self }
        requires src_len { length src.now ≡ width * pack_bytes self }
        requires self_in_bounds { at + row_stride width (pack_bits self) ≤ length dst.old }
        requires fields_ok { FieldsOk self fields.now }
        ensures { dst.new ≡ put dst.old at (stored_row self width src.now) }
    {
        match self {
            RowPack::Bgra32 { bgr } => pack_bgra32(src, bgr, width, dst, at),
            RowPack::Bgr24 { bgr } => pack_bgr24(src, bgr, width, dst, at),
            RowPack::Words16 => pack_words16(src, width, dst, at),
            RowPack::Indexed { bpp } => pack_indices(src, bpp, dst, at),
            RowPack::Masks {
                in_bpp,
                bgr,
                layout,
            } => layout.pack(fields, src, in_bpp, bgr, width, dst, at),
        }
    }

    // The stored rows of a plane, one after the other.
    fn pack_rows(
        self,
        fields: &[u32],
        plane: &[u8],
        stride: usize,
        width: u32,
        height: u32,
        top_down: bool,
        dst: &mut [u8],
        at: usize,
        starts: &mut [u64],
        origin: usize,
    )
        requires pack_ok { PackOk self }
        requires self_bound { width * pack_bytes self ≤ stride }
        requires height_in_bounds { stride * height ≤ length plane.now }
        requires dst_in_bounds { at + row_stride width (pack_bits self) * height ≤ length dst.old }
        requires origin_le_at { origin ≤ at }
        requires fields_ok { FieldsOk self fields.now }
        ensures dst_after { dst.new ≡ put dst.old at (stored_rows self width height top_down plane.now stride) }
        ensures starts_after { starts.new ≡ noted (λ s. at - origin + s * row_stride width (pack_bits self)) starts.old height }
    {
        let bytes = width as usize * self.source_bytes();
        let stored = row_stride(width, self.bits_per_pixel());
        let h = height as usize;
        for s in 0..h {
            let o = at + s * stored;
            note_start(starts, s, o - origin);
            let src = source_row(plane, stride, bytes, h, top_down, s);
            self.row(fields, src, width, dst, o);
        }
    }

    // Writes all stored rows of a plane, and notes where each begins, as a place in the file, whose first byte is at
    // `origin`. The fields of all samples are made once for them, and in mask mode only.
    pub fn pack_all(
        self,
        plane: &[u8],
        stride: usize,
        width: u32,
        height: u32,
        top_down: bool,
        dst: &mut [u8],
        at: usize,
        starts: &mut [u64],
        origin: usize,
    )
        requires pack_ok { PackOk self }
        requires self_bound { width * pack_bytes self ≤ stride }
        requires height_in_bounds { stride * height ≤ length plane.now }
        requires dst_in_bounds { at + row_stride width (pack_bits self) * height ≤ length dst.old }
        requires origin_le_at { origin ≤ at }
        ensures dst_after { dst.new ≡ put dst.old at (stored_rows self width height top_down plane.now stride) }
        ensures starts_after { starts.new ≡ noted (λ s. at - origin + s * row_stride width (pack_bits self)) starts.old height }
    {
        if self.is_copied() {
            copy_rows(
                plane,
                width as usize * self.source_bytes(),
                stride,
                row_stride(width, self.bits_per_pixel()),
                height as usize,
                top_down,
                dst,
                at,
                starts,
                origin,
            );
            return;
        }
        if self.in_mask_mode() {
            let mut fields = [0u32; 1024];
            self.put_fields(&mut fields);
            self.pack_rows(
                &fields, plane, stride, width, height, top_down, dst, at, starts, origin,
            );
            return;
        }
        self.pack_rows(
            &[],
            plane,
            stride,
            width,
            height,
            top_down,
            dst,
            at,
            starts,
            origin,
        );
    }
}
