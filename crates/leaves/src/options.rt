// What a caller chooses (the Rust's options.rs).
ghost use Rattle.std.specs.Prelude.{◌≡◌};
ghost use Rattle.leaves.specs.Options.{defaults};

use crate::bitfields::BmpBitfields;
use crate::types::{LCS_GM_IMAGES, MAX_FILE, PELS_PER_METER};

#[derive(Clone, Copy)]
pub struct CalibratedRgb {
    // bV4Endpoints: red x, y, z, green x, y, z, blue x, y, z.
    pub endpoints: [i32; 9],
    // bV4GammaRed, bV4GammaGreen, bV4GammaBlue.
    pub gamma: [u32; 3],
}

// The last three are document 02's, for each screen its own.
#[derive(Clone, Copy)]
pub struct EncodeOptions {
    pub top_down: bool,
    pub minimal_palette: bool,
    pub rle: bool,
    pub bitfields: Option<BmpBitfields>,
    pub embed_icc: bool,
    // bV5Intent.
    pub rendering_intent: u32,
    pub calibrated_rgb: Option<CalibratedRgb>,
    // Bytes that a file may have.
    pub limit: u64,
    // biXPelsPerMeter and biYPelsPerMeter.
    pub x_pels_per_meter: i32,
    pub y_pels_per_meter: i32,
}

impl EncodeOptions {
    // The Rust's defaults, and what the Rust writes in every file: 72 dots an inch.
    pub fn new() -> Self
        ensures { result ≡ defaults }
    {
        EncodeOptions {
            top_down: false,
            minimal_palette: false,
            rle: true,
            bitfields: None,
            embed_icc: true,
            rendering_intent: LCS_GM_IMAGES,
            calibrated_rgb: None,
            limit: MAX_FILE,
            x_pels_per_meter: PELS_PER_METER,
            y_pels_per_meter: PELS_PER_METER,
        }
    }
}
