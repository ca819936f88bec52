// The writing call (the Rust's encode_source, Plan::write_head and Plan::write_into).
ghost use Rattle.std.specs.Prelude.{◌≡◌, true, false, cond, ◌||◌, ◌+◌, ◌-◌, ◌*◌, ◌≤◌, ◌<◌, ltb, eqb, length, [], Ok};
ghost use Rattle.leaves.specs.Put.{put};
ghost use Rattle.leaves.specs.Refusals.{first_of};
ghost use Rattle.format.specs.File.{max_file, stream_used, file_of, tail_of};
ghost use Rattle.format.specs.Layout.{mode_of, head_rest};
ghost use Rattle.planner.specs.Answers.{Written, WrittenWithStarts, later_for};
ghost use Rattle.planner.specs.Calls.{called, chosen};
ghost use Rattle.planner.specs.Plans.{Planned, Streamed, rest_len, head_by, stream_check, encoded_in, encoded_for, noted_for, list_rows, Wrote};

use crate::heads::{
    FirstFields, long_bits, put_dwords, write_color_table, write_first_fields, write_masks,
    write_v4_fields,
};
use crate::layout::{long_masks, mode_of, tail};
use crate::plan::{Plan, plan_for};
use format::layout::{Layout, Mode};
use leaves::buffer::put_slice;
use leaves::encoder::{EncodeSource, EncodedBmpFormat, clr_used};
use leaves::error::Refusal;
use leaves::options::EncodeOptions;
use leaves::types::{
    BI_RGB, BITMAPINFOHEADER_SIZE, LCS_CALIBRATED_RGB, LCS_S_RGB, PROFILE_EMBEDDED, PROFILE_LINKED,
};
use rows::counting::rle_len;
use rows::rle::{Rle, rle_into};

// The file that the writing call appended.
#[derive(Clone, Copy)]
pub struct Encoded {
    pub format: EncodedBmpFormat,
    // Bytes appended.
    pub bytes: usize,
}

// biHeight's 32 bits: the height, negated for top-down.
fn stored_height(height: u32, top_down: bool) -> u32
    requires { 0 < height }
    ensures { result ≡ cond top_down (4294967296 - height) height }
{
    if top_down {
        return 0xFFFF_FFFF - height + 1;
    }
    height
}

// bV5CSType of a profile.
fn profile_space(linked: bool) -> u32
    ensures { result ≡ cond linked 0x4C494E4B 0x4D424544 }
{
    if linked {
        PROFILE_LINKED
    } else {
        PROFILE_EMBEDDED
    }
}

// What stands between the first 40 bytes of the info header and the colour table.
fn write_rest(
    mode: Mode,
    src: EncodeSource,
    options: EncodeOptions,
    profile_size: u32,
    profile_data: u32,
    buf: &mut [u8],
    at: usize,
)
    requires mode_chosen { mode ≡ mode_of src options }
    requires in_bounds { at + rest_len mode src options ≤ length buf.old }
    ensures { buf.new ≡ put buf.old at (head_rest mode src options profile_size profile_data) }
{
    let format = src.format;
    let masks = long_masks(format);
    match mode {
        Mode::Masked => {
            let bitfields = options.bitfields.unwrap();
            write_masks(buf, at, bitfields.masks);
        }
        Mode::Calibrated => {
            let given = options.calibrated_rgb.unwrap();
            write_v4_fields(
                buf,
                at,
                masks,
                LCS_CALIBRATED_RGB,
                given.endpoints,
                given.gamma,
            );
        }
        Mode::Profiled => {
            let space = profile_space(src.has_linked_icc);
            write_v4_fields(buf, at, masks, space, [0; 9], [0; 3]);
            let fields = [options.rendering_intent, profile_data, profile_size, 0];
            put_dwords(buf, at + 68, &fields);
        }
        Mode::Plain => {
            if format.is_rgb565() {
                write_v4_fields(buf, at, masks, LCS_S_RGB, [0; 9], [0; 3]);
            }
        }
    }
}

// biSizeImage of stored rows: their bytes, but 0 with compression 0 in a 40-byte header.
fn image_size(compression: u32, header_size: u32, raw: u32) -> u32
    ensures { result ≡ cond (eqb compression 0) (cond (eqb header_size 40) 0 raw) raw }
{
    if compression == BI_RGB && header_size == BITMAPINFOHEADER_SIZE {
        0
    } else {
        raw
    }
}

// Everything before the pixels: `head` bytes.
fn write_head(
    layout: Layout,
    src: EncodeSource,
    options: EncodeOptions,
    palette: &[u8],
    head: usize,
    compression: u32,
    image_size: u32,
    file_size: u32,
    profile_size: u32,
    profile_data: u32,
    buf: &mut [u8],
    at: usize,
)
    requires height_nonzero { 0 < src.height }
    requires mode_chosen { layout.mode ≡ mode_of src options }
    requires entries_bound { layout.entries ≤ 256 }
    requires head_le_max_file { head ≤ max_file }
    requires head_length { head ≡ 54 + length (head_rest layout.mode src options 0 0) + 4 * layout.entries }
    requires head_in_bounds { at + head ≤ length buf.old }
    ensures { buf.new ≡ put buf.old at (head_by layout src options palette.now head compression image_size file_size profile_size profile_data) }
{
    let mode = layout.mode;
    let entries = layout.entries;
    write_first_fields(
        buf,
        at,
        FirstFields {
            file_size,
            pixel_offset: head as u32,
            header_size: layout.header_size,
            width: src.width,
            stored_height: stored_height(src.height, options.top_down),
            bit_count: layout.bit_count,
            compression,
            image_size,
            x_pels: long_bits(options.x_pels_per_meter),
            y_pels: long_bits(options.y_pels_per_meter),
            clr_used: clr_used(layout.bit_count, entries),
        },
    );
    write_rest(mode, src, options, profile_size, profile_data, buf, at + 54);
    write_color_table(buf, at + head - 4 * entries, palette, entries);
}

// The file with a stream, counted before: `len` is its length. Such a file has no profile.
fn write_stream(
    plan: Plan,
    rle: Rle,
    len: usize,
    src: EncodeSource,
    options: EncodeOptions,
    plane: &[u8],
    palette: &[u8],
    buf: &mut [u8],
    at: usize,
    starts: &mut [u64],
) -> Encoded
    requires streamed { Streamed (chosen src options plane.now palette.now []) plan.layout plan.sizes rle len }
    requires len_in_bounds { at + plan.sizes.head + len ≤ length buf.old }
    ensures answer { result ≡ encoded_in (chosen src options plane.now palette.now []) }
    ensures buf_after { buf.new ≡ put buf.old at (file_of options.limit (chosen src options plane.now palette.now [])) }
    ensures starts_after { starts.new ≡ noted_for (Ok tt) (chosen src options plane.now palette.now []) starts.old }
{
    let Plan { layout, sizes } = plan;
    let head = sizes.head;
    let size = head + len;
    write_head(
        layout,
        src,
        options,
        palette,
        head,
        rle.compression(),
        len as u32,
        size as u32,
        0,
        0,
        buf,
        at,
    );
    rle_into(
        rle,
        plane,
        src.stride,
        src.width,
        src.height,
        buf,
        at + head,
        starts,
        at,
    );
    Encoded {
        format: rle.format(),
        bytes: size,
    }
}

// The file of stored rows.
fn write_rows(
    plan: Plan,
    src: EncodeSource,
    options: EncodeOptions,
    plane: &[u8],
    palette: &[u8],
    profile: &[u8],
    buf: &mut [u8],
    at: usize,
    starts: &mut [u64],
) -> Encoded
    requires planned { Planned (chosen src options plane.now palette.now profile.now) plan.layout plan.sizes }
    requires stream_unused { stream_used options.limit (chosen src options plane.now palette.now profile.now) ≡ false }
    requires profile_written { profile.now ≡ tail_of (chosen src options plane.now palette.now profile.now) }
    requires file_le_max_file { plan.sizes.file ≤ max_file }
    requires file_in_bounds { at + plan.sizes.file ≤ length buf.old }
    ensures answer { result ≡ encoded_in (chosen src options plane.now palette.now profile.now) }
    ensures buf_after { buf.new ≡ put buf.old at (file_of options.limit (chosen src options plane.now palette.now profile.now)) }
    ensures starts_after { starts.new ≡ noted_for (Ok tt) (chosen src options plane.now palette.now profile.now) starts.old }
{
    let Plan { layout, sizes } = plan;
    let head = sizes.head;
    let raw = sizes.raw as u32;
    let pixels = at + head;
    let pack = layout.pack;
    write_head(
        layout,
        src,
        options,
        palette,
        head,
        layout.compression,
        image_size(layout.compression, layout.header_size, raw),
        sizes.file as u32,
        profile.len() as u32,
        (head - 14) as u32 + raw,
        buf,
        at,
    );
    pack.pack_all(
        plane,
        src.stride,
        src.width,
        src.height,
        options.top_down,
        buf,
        pixels,
        starts,
        at,
    );
    put_slice(buf, pixels + sizes.raw, profile);
    Encoded {
        format: layout.format,
        bytes: sizes.file,
    }
}

// Writes a planned file into a buffer that has room for it: the stream, counted first within the budget, or
// the stored rows, or 16. The start of each row is noted as far as the list goes.
fn write_into(
    plan: Plan,
    src: EncodeSource,
    options: EncodeOptions,
    plane: &[u8],
    palette: &[u8],
    profile: &[u8],
    buf: &mut [u8],
    at: usize,
    starts: &mut [u64],
) -> Result<Encoded, Refusal>
    requires planned { Planned (chosen src options plane.now palette.now profile.now) plan.layout plan.sizes }
    requires profile_written { profile.now ≡ tail_of (chosen src options plane.now palette.now profile.now) }
    requires bound_in_bounds { at + plan.sizes.bound ≤ length buf.old }
    ensures answer { result ≡ encoded_for (stream_check (chosen src options plane.now palette.now profile.now)) (chosen src options plane.now palette.now profile.now) }
    ensures buf_after { buf.new ≡ later_for (stream_check (chosen src options plane.now palette.now profile.now)) (chosen src options plane.now palette.now profile.now) at buf.old }
    ensures starts_after { starts.new ≡ noted_for (stream_check (chosen src options plane.now palette.now profile.now)) (chosen src options plane.now palette.now profile.now) starts.old }
{
    if let Some(rle) = plan.layout.coding {
        let count = rle_len(
            rle,
            plane,
            src.stride,
            src.width,
            src.height,
            plan.sizes.rle_budget,
        );
        if let Some(len) = count {
            return Ok(write_stream(
                plan, rle, len, src, options, plane, palette, buf, at, starts,
            ));
        }
        if !plan.sizes.file_fits {
            return Err(Refusal::StreamOverBudget);
        }
    }
    Ok(write_rows(plan, src, options, plane, palette, profile, buf, at, starts))
}

// 15.
fn too_short(room: usize, offset: usize, bound: usize) -> bool
    ensures { result ≡ ltb room offset || ltb (room - offset) bound }
{
    room < offset || room - offset < bound
}

// What both writing calls do. The call that fills no list lends an empty one, of which no entry is needed.
fn encode_source<'a>(
    src: EncodeSource,
    options: EncodeOptions,
    plane: &[u8],
    palette: &[u8],
    icc: &'a [u8],
    linked_icc: &'a [u8],
    out: &mut [u8],
    offset: usize,
    starts: &mut [u64],
    needed: usize,
) -> Result<Encoded, Refusal>
    ensures { Wrote (first_of (list_rows options.limit (called src options plane.now palette.now icc.now linked_icc.now) (length out.old) offset (length starts.old) needed)) (called src options plane.now palette.now icc.now linked_icc.now) offset out.old out.new starts.old starts.new result }
{
    let mode = mode_of(src, options);
    let profile = tail(mode, src.has_linked_icc, icc, linked_icc);
    let planned = plan_for(
        mode,
        src,
        options,
        plane.len(),
        palette.len(),
        profile.len(),
    );
    // Document 01 names this form, let-else on the plan, and not `?`: "any other answer leaves with its number".
    let Ok(plan) = planned else {
        return Err(planned.unwrap_err());
    };
    if too_short(out.len(), offset, plan.sizes.bound) {
        return Err(Refusal::BufferTooShort);
    }
    if starts.len() < needed {
        return Err(Refusal::StartsTooShort);
    }
    write_into(
        plan, src, options, plane, palette, profile, out, offset, starts,
    )
}

// Appends the file at the offset of a lent buffer, or changes nothing and says why.
pub fn encode_into<'a>(
    src: EncodeSource,
    options: EncodeOptions,
    plane: &[u8],
    palette: &[u8],
    icc: &'a [u8],
    linked_icc: &'a [u8],
    out: &mut [u8],
    offset: usize,
) -> Result<Encoded, Refusal>
    ensures { Written (called src options plane.now palette.now icc.now linked_icc.now) offset out.old out.new result }
{
    let mut none = [0u64; 0];
    let starts: &mut [u64] = &mut none;
    encode_source(
        src, options, plane, palette, icc, linked_icc, out, offset, starts, 0,
    )
}

// The same, and the list gets the place in the file of each stored row's first byte, in stored order.
pub fn encode_with_starts<'a>(
    src: EncodeSource,
    options: EncodeOptions,
    plane: &[u8],
    palette: &[u8],
    icc: &'a [u8],
    linked_icc: &'a [u8],
    out: &mut [u8],
    offset: usize,
    starts: &mut [u64],
) -> Result<Encoded, Refusal>
    ensures { WrittenWithStarts (called src options plane.now palette.now icc.now linked_icc.now) offset out.old out.new starts.old starts.new result }
{
    let needed = src.height as usize;
    encode_source(
        src, options, plane, palette, icc, linked_icc, out, offset, starts, needed,
    )
}
