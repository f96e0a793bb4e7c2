//! One instruction.

ghost use Rattle.std.specs.Prelude.{◌≡◌, ◌+ℤ◌, ◌-ℤ◌, pos, ℕ, Some, None, length, slice_get};
ghost use Rattle.image.specs.Raw.{image_of};
ghost use Rattle.base.specs.Words.{is_word};
ghost use Rattle.valid_image.specs.Operands as defined;
ghost use Rattle.loader_code.specs.Seen.{area_of, natural_of, whose_of, AreBounds};

use crate::words::{
    Area, Whose, in_area, is_between, local_words, monitor_words, natural, own_words,
};
use image::RawImage;
use machine_isa::Instr;

/// The operand, unless the test passes.
fn bad(passes: bool, operand: i32) -> Option<i32>
    ensures { result ≡ defined.bad passes operand }
{
    if passes { None } else { Some(operand) }
}

/// Whether an array ends in the area.
#[tactic(auto, using(crate::proofs::Ranges::ends_by))]
fn ends_in(area: Area, word: i32, len: i32) -> bool
    ensures { result ≡ defined.ends_in (area_of area) word len }
{
    match (natural(word), natural(len)) {
        (Some(first), Some(words)) => {
            first as u64 + words as u64 <= area.base as u64 + area.words as u64
        }
        _ => false,
    }
}

/// Whether the number is a word.
#[tactic(auto, using(crate::proofs::Ranges::word_within, crate::proofs::Ranges::word_low, crate::proofs::Ranges::word_high))]
fn is_word(number: i64) -> bool
    ensures { result ≡ is_word number }
{
    if number < -2_147_483_648 {
        return false;
    }
    if 2_147_483_647 < number {
        return false;
    }
    true
}

/// The last index of an array.
fn last_index(low: i32, len: i32) -> i64
    ensures { result ≡ (low +ℤ len) -ℤ pos 1 }
{
    low as i64 + len as i64 - 1
}

/// The operand of an array's instruction that breaks a rule.
fn bad_array(area: Area, word: i32, low: i32, len: i32) -> Option<i32>
    ensures { result ≡ defined.bad_array (area_of area) word low len }
{
    if !in_area(area, word) {
        return Some(word);
    }
    if !is_between(1, 65_536, len) {
        return Some(len);
    }
    if !ends_in(area, word, len) {
        return Some(word);
    }
    bad(is_word(last_index(low, len)), word)
}

/// The word, unless it is one of the area.
fn bad_word(area: Area, word: i32) -> Option<i32>
    ensures { result ≡ defined.bad (defined.in_area (area_of area) word) word }
{
    bad(in_area(area, word), word)
}

/// Whether the monitor is the owner.
#[tactic(auto, using(crate::proofs::Ranges::own_monitor_by))]
fn is_own_monitor(whose: Whose, monitor: i32) -> bool
    ensures { result ≡ defined.is_own_monitor (whose_of whose) monitor }
{
    match natural(monitor) {
        Some(number) => whose.kind == 2 && number == whose.owner as u32,
        None => false,
    }
}

/// Whether the condition is one of the owner's.
#[tactic(auto, using(crate::proofs::Ranges::own_condition_by, crate::proofs::Ranges::condition_is))]
fn is_own_condition(image: &RawImage, whose: Whose, condition: i32) -> bool
    ensures { result ≡ defined.is_own_condition (image_of image.now) (whose_of whose) condition }
{
    let Some(number) = natural(condition) else {
        return false;
    };
    match image.names.conditions.get(number as usize) {
        Some(found) => whose.kind == 2 && found.mon == whose.owner,
        None => false,
    }
}

/// Whether there is such a device, and it goes the same way.
#[tactic(auto, using(crate::proofs::Ranges::device_by, crate::proofs::Ranges::device_is))]
fn is_device(image: &RawImage, out: bool, device: i32) -> bool
    ensures { result ≡ defined.is_device (image_of image.now) out device }
{
    let Some(number) = natural(device) else {
        return false;
    };
    match image.names.devices.get(number as usize) {
        Some(found) => found.out == out,
        None => false,
    }
}

/// Whether the routine stands below the caller and may be called from it.
#[tactic(auto, using(crate::proofs::Ranges::may_call_by, crate::proofs::Ranges::callee_is))]
fn may_call(image: &RawImage, bounds: &[bool], whose: Whose, routine: i32) -> bool
    requires { AreBounds (image_of image.now) bounds.now }
    ensures { result ≡ defined.may_call (image_of image.now) (whose_of whose) routine }
{
    let Some(number) = natural(routine) else {
        return false;
    };
    let number = number as usize;
    match image.routines.get(number) {
        Some(found) => {
            let is_open = found.kind != 1 || (whose.kind == 1 && found.owner == whose.owner);
            let is_bound = number < bounds.len() && bounds[number];
            number < whose.number && is_open && !(whose.kind == 2 && is_bound)
        }
        None => false,
    }
}

/// Whether a program may raise the number.
fn is_user_number(number: i32) -> bool
    ensures { result ≡ defined.is_user_number number }
{
    is_between(10, 999, number)
}

/// The operand of a WAIT that breaks a rule.
fn bad_wait(image: &RawImage, whose: Whose, condition: i32, limit: i32, number: i32) -> Option<i32>
    ensures { result ≡ defined.bad_operand (image_of image.now) (whose_of whose)
        (Instr.Wait condition limit number) }
{
    if !is_own_condition(image, whose, condition) {
        return Some(condition);
    }
    if !is_between(1, 1_000_000_000, limit) {
        return Some(limit);
    }
    bad(is_user_number(number), number)
}

/// The operand that breaks a rule: the first that is out of range by itself, else the first.
pub(crate) fn bad_operand(
    image: &RawImage,
    bounds: &[bool],
    whose: Whose,
    instr: Instr,
) -> Option<i32>
    requires { AreBounds (image_of image.now) bounds.now }
    ensures { result ≡ defined.bad_operand (image_of image.now) (whose_of whose) instr }
{
    match instr {
        Instr::Push { value: _ } => None,
        Instr::LoadLocal { word } => bad_word(local_words(whose), word),
        Instr::StoreLocal { word } => bad_word(local_words(whose), word),
        Instr::LoadOwn { word } => bad_word(own_words(image, whose), word),
        Instr::StoreOwn { word } => bad_word(own_words(image, whose), word),
        Instr::LoadMon { word } => bad_word(monitor_words(image, whose), word),
        Instr::StoreMon { word } => bad_word(monitor_words(image, whose), word),
        Instr::LoadLocalAt { word, low, len } => bad_array(local_words(whose), word, low, len),
        Instr::StoreLocalAt { word, low, len } => bad_array(local_words(whose), word, low, len),
        Instr::LoadOwnAt { word, low, len } => bad_array(own_words(image, whose), word, low, len),
        Instr::StoreOwnAt { word, low, len } => bad_array(own_words(image, whose), word, low, len),
        Instr::LoadMonAt { word, low, len } => {
            bad_array(monitor_words(image, whose), word, low, len)
        }
        Instr::StoreMonAt { word, low, len } => {
            bad_array(monitor_words(image, whose), word, low, len)
        }
        Instr::Neg => None,
        Instr::Not => None,
        Instr::And => None,
        Instr::Or => None,
        Instr::Add => None,
        Instr::Sub => None,
        Instr::Eq => None,
        Instr::Ne => None,
        Instr::Lt => None,
        Instr::Le => None,
        Instr::Gt => None,
        Instr::Ge => None,
        Instr::Mul => None,
        Instr::Div => None,
        Instr::Mod => None,
        Instr::Range { low, high } => bad(low <= high, low),
        Instr::JumpZero { to: _ } => None,
        Instr::Jump { to: _ } => None,
        Instr::Repeats { turns } => bad(is_between(1, 1_000_000, turns), turns),
        Instr::Repeat { to: _ } => None,
        Instr::Exit { to: _ } => None,
        Instr::Call { routine } => bad(may_call(image, bounds, whose, routine), routine),
        Instr::Return => None,
        Instr::ReturnValue => None,
        Instr::Enter { monitor } => bad(is_own_monitor(whose, monitor), monitor),
        Instr::Leave { monitor } => bad(is_own_monitor(whose, monitor), monitor),
        Instr::Wait {
            condition,
            limit,
            number,
        } => bad_wait(image, whose, condition, limit, number),
        Instr::Reenter { monitor } => bad(is_own_monitor(whose, monitor), monitor),
        Instr::Signal { condition } => bad(is_own_condition(image, whose, condition), condition),
        Instr::Broadcast { condition } => {
            bad(is_own_condition(image, whose, condition), condition)
        }
        Instr::Empty { condition } => bad(is_own_condition(image, whose, condition), condition),
        Instr::In { device } => bad(is_device(image, false, device), device),
        Instr::Out { device } => bad(is_device(image, true, device), device),
        Instr::Raise { number } => {
            bad(is_between(4, 4, number) || is_user_number(number), number)
        }
        Instr::End => None,
    }
}
