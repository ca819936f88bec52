// Why a call is refused (the Rust's error.rs; its messages are numbers here).
ghost use Rattle.std.specs.Prelude.{◌≡◌};
ghost use Rattle.leaves.specs.Refusals.{number_of};

// The rows of document 01's table, in their order, and document 02's of the settings and of the row starts.
#[derive(Clone, Copy, Debug, PartialEq, Eq)]
pub enum Refusal {
    ZeroDimension = 1,
    DimensionTooLarge = 2,
    PaletteMissing = 3,
    PaletteNotQuads = 4,
    SeveralModes = 5,
    MaskDepth = 6,
    MaskAboveDepth = 7,
    MaskNotOneRun = 8,
    MaskOverlap = 9,
    NoColourMask = 10,
    MaskSource = 11,
    PlaneTooShort = 12,
    StrideTooShort = 13,
    FileTooLarge = 14,
    BufferTooShort = 15,
    StreamOverBudget = 16,
    LimitTooLarge = 20,
    NegativeResolution = 21,
    StartsTooShort = 24,
}

impl Refusal {
    // The table's number.
    pub fn number(self) -> u32
        ensures { result ≡ number_of self }
    {
        self as u32
    }
}
