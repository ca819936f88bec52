// The checks of the table of refusals that need numbers only, one function for each group of rows.
ghost use Rattle.std.specs.Prelude.{◌≡◌, ◌*◌, nat_lt};
ghost use Rattle.leaves.specs.Refusals.{first_of, profile_mode, dimension_rows, settings_rows, palette_rows, mode_rows, plane_rows};

use crate::error::Refusal;
use crate::types::MAX_FILE;

// The largest LONG: biWidth and biHeight are signed.
const MAX_DIMENSION: u32 = 0x7FFF_FFFF;

// 1 and 2.
#[tactic(auto, unfolding(crate::specs::Refusals::dimension_rows))]
pub fn check_dimensions(width: u32, height: u32) -> Result<(), Refusal>
    ensures { result ≡ first_of (dimension_rows width height) }
{
    if width == 0 || height == 0 {
        return Err(Refusal::ZeroDimension);
    }
    if width > MAX_DIMENSION || height > MAX_DIMENSION {
        return Err(Refusal::DimensionTooLarge);
    }
    Ok(())
}

// 20 and 21.
#[tactic(auto, unfolding(crate::specs::Refusals::settings_rows))]
pub fn check_settings(
    limit: u64,
    x_pels_per_meter: i32,
    y_pels_per_meter: i32,
) -> Result<(), Refusal>
    ensures { result ≡ first_of (settings_rows limit x_pels_per_meter y_pels_per_meter) }
{
    if limit > MAX_FILE {
        return Err(Refusal::LimitTooLarge);
    }
    if x_pels_per_meter < 0 || y_pels_per_meter < 0 {
        return Err(Refusal::NegativeResolution);
    }
    Ok(())
}

// 3 and 4: a palette is looked at for indexed formats only.
#[tactic(auto, unfolding(crate::specs::Refusals::palette_rows))]
pub fn check_palette(indexed: bool, given: bool, bytes: usize) -> Result<(), Refusal>
    ensures { result ≡ first_of (palette_rows indexed given bytes) }
{
    if !indexed {
        return Ok(());
    }
    if !given {
        return Err(Refusal::PaletteMissing);
    }
    if bytes % 4 != 0 {
        return Err(Refusal::PaletteNotQuads);
    }
    Ok(())
}

// Whether the file gets a profile: a linked one, or an embedded one where embedding is on.
pub fn profile_mode(has_linked_icc: bool, has_icc: bool, embed_icc: bool) -> bool
    ensures { result ≡ profile_mode has_linked_icc has_icc embed_icc }
{
    has_linked_icc || (has_icc && embed_icc)
}

// 5.
pub fn check_modes(bitfields: bool, calibrated_rgb: bool, profile: bool) -> Result<(), Refusal>
    ensures { result ≡ first_of (mode_rows bitfields calibrated_rgb profile) }
{
    let requested = bitfields as u8 + calibrated_rgb as u8 + profile as u8;
    if requested > 1 {
        return Err(Refusal::SeveralModes);
    }
    Ok(())
}

// Whether n is below a × b, with no product that could wrap.
pub fn below_product(n: usize, a: usize, b: usize) -> bool
    ensures { result ≡ nat_lt n (a * b) }
{
    if b == 0 {
        return false;
    }
    n / b < a
}

// 12 and 13.
#[tactic(auto, unfolding(crate::specs::Refusals::plane_rows))]
pub fn check_plane(
    width: u32,
    height: u32,
    stride: usize,
    source_bytes: usize,
    bytes: usize,
) -> Result<(), Refusal>
    ensures { result ≡ first_of (plane_rows width height stride source_bytes bytes) }
{
    if below_product(bytes, stride, height as usize) {
        return Err(Refusal::PlaneTooShort);
    }
    if below_product(stride, width as usize, source_bytes) {
        return Err(Refusal::StrideTooShort);
    }
    Ok(())
}
