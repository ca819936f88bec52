// Explicit masks: their check, a mask's shift and length, and a sample fitted to it (the Rust's
// encoder.rs, section on BI_BITFIELDS and BI_ALPHABITFIELDS).
ghost use Rattle.std.specs.Prelude.{◌≡◌, ◌+◌, ◌^◌, ◌<◌, ◌≤◌, ◌⊎◌};
ghost use Rattle.leaves.specs.Fit.{fit};
ghost use Rattle.leaves.specs.Masks.{is_one_run, union_of, mask_rows, bitfields_rows, has_alpha_mask, mask_compression, ShiftLen};
ghost use Rattle.leaves.specs.Refusals.{check_number, first_number};
ghost use Rattle.leaves.specs.Widening.{Widens};

use crate::error::Refusal;
use crate::types::{BI_ALPHABITFIELDS, BI_BITFIELDS};
use crate::widening::widened;

#[derive(Clone, Copy)]
pub struct BmpBitfields {
    pub bpp: u16,
    // Red, green, blue, alpha.
    pub masks: [u32; 4],
}

impl BmpBitfields {
    pub fn has_alpha(self) -> bool
        ensures { result ≡ has_alpha_mask self.masks }
    {
        self.masks[3] != 0
    }

    // biCompression of a file with these masks.
    pub fn compression(self) -> u32
        ensures { result ≡ mask_compression self.masks }
    {
        if self.has_alpha() {
            BI_ALPHABITFIELDS
        } else {
            BI_BITFIELDS
        }
    }
}

// Whether a mask has its ones in one run. A run of 32 ones needs the sum to wrap.
fn is_contiguous(mask: u32) -> bool
    ensures { result ≡ is_one_run mask }
{
    if mask == 0 {
        return true;
    }
    let normalised = mask >> mask.trailing_zeros();
    normalised & normalised.wrapping_add(1) == 0
}

// All bits of a word of this depth.
fn mask_limit(bpp: u16) -> u32
    requires { (bpp ≡ 16) ⊎ (bpp ≡ 32) }
    ensures { result + 1 ≡ 2 ^ bpp }
{
    if bpp == 32 {
        return 0xFFFF_FFFF;
    }
    0xFFFF
}

// 7, 8 and 9 of the mask at place k, after masks whose bits together are `union`.
fn validate_mask(bpp: u16, masks: [u32; 4], k: usize, union: u32) -> Result<(), Refusal>
    requires known_depth { (bpp ≡ 16) ⊎ (bpp ≡ 32) }
    requires k_bound { k < 4 }
    requires union_so_far { union ≡ union_of masks k }
    ensures { check_number result ≡ first_number (mask_rows bpp masks k) }
{
    let mask = masks[k];
    if mask == 0 {
        return Ok(());
    }
    if mask > mask_limit(bpp) {
        return Err(Refusal::MaskAboveDepth);
    }
    if !is_contiguous(mask) {
        return Err(Refusal::MaskNotOneRun);
    }
    if union & mask != 0 {
        return Err(Refusal::MaskOverlap);
    }
    Ok(())
}

// The mask check: 6 to 10.
pub fn validate(bpp: u16, masks: [u32; 4]) -> Result<(), Refusal>
    ensures { check_number result ≡ first_number (bitfields_rows bpp masks) }
{
    if bpp != 16 && bpp != 32 {
        return Err(Refusal::MaskDepth);
    }
    let mut union: u32 = 0;
    for k in 0..4 {
        validate_mask(bpp, masks, k, union)?;
        union |= masks[k];
    }
    if masks[0] == 0 && masks[1] == 0 && masks[2] == 0 {
        return Err(Refusal::NoColourMask);
    }
    Ok(())
}

// Where a channel stands in its word: its lowest bit and its count of bits.
#[derive(Clone, Copy)]
pub struct MaskShiftLen {
    pub shift: u32,
    pub len: u32,
}

pub fn mask_shift_len(mask: u32) -> MaskShiftLen
    ensures { ShiftLen mask result.shift result.len }
{
    if mask == 0 {
        return MaskShiftLen { shift: 0, len: 0 };
    }
    let shift = mask.trailing_zeros();
    let len = 32 - mask.leading_zeros() - shift;
    MaskShiftLen { shift, len }
}

// A sample of 8 bits, fitted to n bits: its top bits; to 9 up to 16 bits the lent widening table's
// number; to more, its bits repeated from the top down, which are the top of the sample four times.
pub fn quantise(table: &[u16], sample: u8, n: u32) -> u32
    requires widens { Widens table.now }
    requires n_bound { n ≤ 32 }
    ensures { result ≡ fit n sample }
{
    let s = sample as u32;
    if n <= 8 {
        return s >> (8 - n);
    }
    if n <= 16 {
        return widened(table, s, n);
    }
    (s * 0x0101_0101) >> (32 - n)
}
