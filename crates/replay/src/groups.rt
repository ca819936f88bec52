// How many cases there are of each source format, mode and answer.
ghost use Rattle.std.specs.Prelude.{◌≡◌, length};

use crate::answers::Answer;
use crate::head::{options_of, source_of, word};
use crate::printing::{answer_name, source_name};
use leaves::bitfields::BmpBitfields;
use leaves::encoder::EncodeSource;
use leaves::options::EncodeOptions;
use std::{fmt, io};

// What a case asks for beside its format.
#[derive(Clone, Copy)]
pub(crate) enum Mode {
    Plain,
    Masks16,
    AlphaMasks16,
    Masks32,
    AlphaMasks32,
    Calibrated,
    EmbeddedProfile,
    LinkedProfile,
    BothProfiles,
    ProfileLeftOut,
    Several,
    OtherMasks,
}

const ALL_MODES: [Mode; MODES] = [
    Mode::Plain,
    Mode::Masks16,
    Mode::AlphaMasks16,
    Mode::Masks32,
    Mode::AlphaMasks32,
    Mode::Calibrated,
    Mode::EmbeddedProfile,
    Mode::LinkedProfile,
    Mode::BothProfiles,
    Mode::ProfileLeftOut,
    Mode::Several,
    Mode::OtherMasks,
];

impl fmt::Display for Mode {
    fn fmt<W: fmt::Write>(&self, f: &mut fmt::Formatter<W>) -> fmt::Result {
        let name = match *self {
            Mode::Plain => "no mode",
            Mode::Masks16 => "masks of 16 bits",
            Mode::AlphaMasks16 => "masks of 16 bits with alpha",
            Mode::Masks32 => "masks of 32 bits",
            Mode::AlphaMasks32 => "masks of 32 bits with alpha",
            Mode::Calibrated => "calibrated",
            Mode::EmbeddedProfile => "embedded profile",
            Mode::LinkedProfile => "linked profile",
            Mode::BothProfiles => "both profiles",
            Mode::ProfileLeftOut => "profile not embedded",
            Mode::Several => "several modes",
            Mode::OtherMasks => "masks of another depth",
        };
        write!(f, "{name}")
    }
}

// Modes and answers that are counted apart; with 10 source formats that makes 4,560 groups.
const MODES: usize = 12;

const ANSWERS: usize = 38;

pub(crate) fn counters() -> [u32; 4560]
    ensures { 4560 ≡ length result }
{
    [0; 4560]
}

fn mask_mode(masks: BmpBitfields) -> Mode {
    match (masks.bpp, masks.has_alpha()) {
        (16, false) => Mode::Masks16,
        (16, true) => Mode::AlphaMasks16,
        (32, false) => Mode::Masks32,
        (32, true) => Mode::AlphaMasks32,
        _ => Mode::OtherMasks,
    }
}

fn profile_mode(src: EncodeSource, embedded: bool) -> Mode {
    match (src.has_linked_icc, embedded) {
        (true, true) => Mode::BothProfiles,
        (true, false) => Mode::LinkedProfile,
        (false, true) => Mode::EmbeddedProfile,
        (false, false) if src.has_icc => Mode::ProfileLeftOut,
        (false, false) => Mode::Plain,
    }
}

pub(crate) fn mode_of(src: EncodeSource, options: EncodeOptions) -> Mode {
    let embedded = src.has_icc && options.embed_icc;
    let profile = src.has_linked_icc || embedded;
    let masks = options.bitfields.is_some();
    let calibrated = options.calibrated_rgb.is_some();
    if masks && calibrated || masks && profile || calibrated && profile {
        return Mode::Several;
    }
    if let Some(bitfields) = options.bitfields {
        return mask_mode(bitfields);
    }
    if calibrated {
        return Mode::Calibrated;
    }
    profile_mode(src, embedded)
}

// The answer's place in answer_name; `stream` is 2 where a stream was as long as the rows and 3 where it was
// longer.
fn answer_of(answer: Answer, stream: u32) -> usize {
    if answer.number != 0 {
        return 16 + (answer.number % 22) as usize;
    }
    if stream == 2 {
        return if answer.format == 5 { 13 } else { 12 };
    }
    if stream == 3 {
        return if answer.format == 5 { 15 } else { 14 };
    }
    (answer.format % 12) as usize
}

pub(crate) fn group_of(head: &[u8], answer: Answer) -> usize {
    let format = (word(head, 1) % 10) as usize;
    let mode = mode_of(source_of(head), options_of(head)) as usize;
    let place = answer_of(answer, word(head, 36));
    (format * MODES + mode) * ANSWERS + place % ANSWERS
}

pub(crate) fn count(counts: &mut [u32], group: usize) {
    if group < counts.len() {
        counts[group] = counts[group].saturating_add(1);
    }
}

fn group_line(rt: &impl Print, group: usize, n: u32) -> io::Result<()> {
    if n == 0 {
        return Ok(());
    }
    source_name(rt, group / ANSWERS / MODES)?;
    let mode = ALL_MODES[group / ANSWERS % MODES];
    print!(rt; ", {mode}, ")?;
    answer_name(rt, group % ANSWERS)?;
    println!(rt; ": {n}")
}

pub(crate) fn group_lines(rt: &impl Print, counts: &[u32]) -> io::Result<()> {
    for (group, n) in counts.iter().enumerate() {
        group_line(rt, group, *n)?;
    }
    Ok(())
}
