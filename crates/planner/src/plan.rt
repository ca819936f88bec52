// The plan of a call, decided before the first byte is written (the Rust's Sizes and Plan), and the size
// query.
ghost use Rattle.std.specs.Prelude.{◌≡◌, true, [], ◌∷◌, ◌+◌, ◌-◌, ◌≤◌, ◌<◌, ◌^◌, min, leb, is_some};
ghost use Rattle.leaves.specs.declared.error.Refusal.TheVariants.{MaskSource};
ghost use Rattle.leaves.specs.Formats.{mask_source};
ghost use Rattle.leaves.specs.Refusals.{first_of};
ghost use Rattle.format.specs.File.{max_file};
ghost use Rattle.format.specs.Layout.{mode_of, wants_rle};
ghost use Rattle.format.specs.Refusals.{given_masks_rows, check_rows};
ghost use Rattle.planner.specs.Answers.{Sized};
ghost use Rattle.planner.specs.Calls.{called};
ghost use Rattle.planner.specs.Plans.{PlannedBy, sizes_plan};

use crate::layout::{head_len, layout_of, mode_of, tail};
use format::layout::{Layout, Mode};
use leaves::bitfields::validate;
use leaves::checks::{
    check_dimensions, check_modes, check_palette, check_plane, check_settings, profile_mode,
};
use leaves::encoder::EncodeSource;
use leaves::error::Refusal;
use leaves::image::BmpPixelFormat;
use leaves::options::EncodeOptions;
use leaves::types::row_stride;

// The byte counts of a call.
#[derive(Clone, Copy)]
pub struct Sizes {
    // Bytes before the pixels.
    pub head: usize,
    // Bytes of the stored rows.
    pub raw: usize,
    // The file of stored rows.
    pub file: usize,
    pub file_fits: bool,
    // The length that a stream must stay below.
    pub rle_budget: usize,
    // Bytes that a writing call asks for.
    pub bound: usize,
}

// What a call will write, decided before the first byte is written.
#[derive(Clone, Copy)]
pub struct Plan {
    pub layout: Layout,
    pub sizes: Sizes,
}

// 11.
fn check_source(format: BmpPixelFormat) -> Result<(), Refusal>
    ensures { result ≡ first_of ((mask_source format, MaskSource) ∷ []) }
{
    if format.takes_masks() {
        return Ok(());
    }
    Err(Refusal::MaskSource)
}

// 6 to 11.
fn check_masks(src: EncodeSource, options: EncodeOptions) -> Result<(), Refusal>
    ensures { result ≡ first_of (given_masks_rows src options) }
{
    if let Some(bitfields) = options.bitfields {
        validate(bitfields.bpp, bitfields.masks)?;
        check_source(src.format)?;
    }
    Ok(())
}

// 1 to 13 with 20 and 21, of a plane and a palette of so many bytes.
fn checks(
    src: EncodeSource,
    options: EncodeOptions,
    plane_bytes: usize,
    palette_bytes: usize,
) -> Result<(), Refusal>
    ensures { result ≡ first_of (check_rows src options plane_bytes palette_bytes) }
{
    let format = src.format;
    let profile = profile_mode(src.has_linked_icc, src.has_icc, options.embed_icc);
    check_dimensions(src.width, src.height)?;
    check_settings(
        options.limit,
        options.x_pels_per_meter,
        options.y_pels_per_meter,
    )?;
    check_palette(format.is_indexed(), src.has_palette, palette_bytes)?;
    check_modes(
        options.bitfields.is_some(),
        options.calibrated_rgb.is_some(),
        profile,
    )?;
    check_masks(src, options)?;
    check_plane(
        src.width,
        src.height,
        src.stride,
        format.bytes_per_pixel(),
        plane_bytes,
    )
}

// Whether a file is no longer than the limit. A profile is compared before it is added: no sum can wrap.
fn fits(body: usize, profile_bytes: usize, limit: usize) -> bool
    ensures { result ≡ leb (body + profile_bytes) limit }
{
    body <= limit && profile_bytes <= limit - body
}

// The length that a stream must stay below.
fn budget(head: usize, raw: usize, limit: usize) -> usize
    requires { limit ≤ max_file }
    ensures { result ≡ min raw (limit + 1 - head) }
{
    raw.min((limit + 1).saturating_sub(head))
}

// The sizes of a file of at most `limit` bytes, or 14.
fn sizes_for(
    layout: Layout,
    head: usize,
    raw: usize,
    profile_bytes: usize,
    width: u32,
    limit: usize,
) -> Result<Plan, Refusal>
    requires limit_le_max_file { limit ≤ max_file }
    requires head_bound { head ≤ 1162 }
    requires raw_bound { raw + 2 ^ 33 ≤ 2 ^ 64 }
    requires stream_unprofiled { is_some layout.coding ≡ true → profile_bytes ≡ 0 }
    ensures { result ≡ sizes_plan limit layout head raw profile_bytes width }
{
    let body = head + raw;
    let file_fits = fits(body, profile_bytes, limit);
    let rle_budget = budget(head, raw, limit);
    if layout.coding.is_some() {
        let fallback = if file_fits { raw } else { 0 };
        let stream = rle_budget + 2 * width as usize + 2;
        let sizes = Sizes {
            head,
            raw,
            file: body,
            file_fits,
            rle_budget,
            bound: head + stream.max(fallback),
        };
        return Ok(Plan { layout, sizes });
    }
    if !file_fits {
        return Err(Refusal::FileTooLarge);
    }
    let file = body + profile_bytes;
    let sizes = Sizes {
        head,
        raw,
        file,
        file_fits,
        rle_budget,
        bound: file,
    };
    Ok(Plan { layout, sizes })
}

// 1 to 14 with 20 and 21, and layout and sizes of what they let pass.
pub(crate) fn plan_for(
    mode: Mode,
    src: EncodeSource,
    options: EncodeOptions,
    plane_bytes: usize,
    palette_bytes: usize,
    profile_bytes: usize,
) -> Result<Plan, Refusal>
    requires mode_chosen { mode ≡ mode_of src options }
    requires stream_unprofiled { wants_rle src options ≡ true → profile_bytes ≡ 0 }
    ensures { PlannedBy src options plane_bytes palette_bytes profile_bytes result }
{
    checks(src, options, plane_bytes, palette_bytes)?;
    let layout = layout_of(mode, src, options, palette_bytes);
    let head = head_len(layout, src, options, palette_bytes);
    let raw = row_stride(src.width, layout.bit_count) * src.height as usize;
    sizes_for(
        layout,
        head,
        raw,
        profile_bytes,
        src.width,
        options.limit as usize,
    )
}

// How many bytes a writing call asks for.
pub fn encoded_size_bound<'a>(
    src: EncodeSource,
    options: EncodeOptions,
    plane: &[u8],
    palette: &[u8],
    icc: &'a [u8],
    linked_icc: &'a [u8],
) -> Result<usize, Refusal>
    ensures { Sized (called src options plane.now palette.now icc.now linked_icc.now) result }
{
    let mode = mode_of(src, options);
    let profile = tail(mode, src.has_linked_icc, icc, linked_icc);
    let plan = plan_for(
        mode,
        src,
        options,
        plane.len(),
        palette.len(),
        profile.len(),
    )?;
    Ok(plan.sizes.bound)
}
