//! The words that an instruction may touch.

ghost use Rattle.std.specs.Prelude.{◌≡◌, ◌+◌, ◌<◌, ◌≤◌, ◌^◌, ℕ};
ghost use Rattle.image.specs.Raw.{image_of};
ghost use Rattle.base.specs.Words.{is_word};
ghost use Rattle.valid_image.specs.Operands.{bad_array as defined_bad_array, in_area as is_in_area, is_between as is_in_between, local_words as words_of_locals, monitor_words as words_of_monitors, own_words as words_of_owner};
ghost use Rattle.loader_code.specs.Seen.{area_of, natural_of, whose_of};

use image::RawImage;

/// Whose code it is: of a routine with its kind and owner, or of a process, which counts as a
/// routine of its own above all others.
#[derive(Clone, Copy)]
pub(crate) struct Whose {
    pub number: usize,
    pub kind: u8,
    pub owner: u16,
    pub locals: u32,
}

/// Words that stand in a row.
#[derive(Clone, Copy)]
pub(crate) struct Area {
    pub base: u32,
    pub words: u32,
}

const NO_WORDS: Area = Area { base: 0, words: 0 };

/// The operand, where it is not negative.
pub(crate) fn natural(operand: i32) -> Option<u32>
    ensures { result ≡ natural_of operand }
{
    if operand < 0 {
        None
    } else {
        Some(operand as u32)
    }
}

/// Whether the operand is a number of the range.
#[tactic(auto, using(crate::proofs::Ranges::between_by))]
pub(crate) fn is_between(low: u32, high: u32, operand: i32) -> bool
    ensures { result ≡ is_in_between low high operand }
{
    match natural(operand) {
        Some(n) => low <= n && n <= high,
        None => false,
    }
}

/// Whether the word is one of the area.
#[tactic(auto, using(crate::proofs::Ranges::area_by))]
pub(crate) fn in_area(area: Area, word: i32) -> bool
    ensures { result ≡ is_in_area (area_of area) word }
{
    match natural(word) {
        Some(n) => area.base <= n && (n as u64) < area.base as u64 + area.words as u64,
        None => false,
    }
}

/// The local words.
pub(crate) fn local_words(whose: Whose) -> Area
    ensures { area_of result ≡ words_of_locals (whose_of whose) }
{
    Area {
        base: 0,
        words: whose.locals,
    }
}

/// The words of the owning process; routines of the program and entries have none.
#[tactic(auto, using(crate::proofs::Ranges::own_is, crate::proofs::Ranges::own_none, crate::proofs::Ranges::not_own))]
pub(crate) fn own_words(image: &RawImage, whose: Whose) -> Area
    ensures { area_of result ≡ words_of_owner (image_of image.now) (whose_of whose) }
{
    if whose.kind != 1 {
        return NO_WORDS;
    }
    match image.processes.get(whose.owner as usize) {
        Some(process) => Area {
            base: 0,
            words: process.words,
        },
        None => NO_WORDS,
    }
}

/// The words of the owning monitor; other code than entries has none.
#[tactic(auto, using(crate::proofs::Ranges::monitor_is, crate::proofs::Ranges::monitor_none, crate::proofs::Ranges::not_monitor))]
pub(crate) fn monitor_words(image: &RawImage, whose: Whose) -> Area
    ensures { area_of result ≡ words_of_monitors (image_of image.now) (whose_of whose) }
{
    if whose.kind != 2 {
        return NO_WORDS;
    }
    match image.monitors.get(whose.owner as usize) {
        Some(monitor) => Area {
            base: monitor.base,
            words: monitor.words,
        },
        None => NO_WORDS,
    }
}
