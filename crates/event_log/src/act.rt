//! What a process does.

ghost use Rattle.std.specs.Prelude.{◌≡◌, ◌≢◌, ◌≤◌, ◌<◌, ◌^◌, ◌++◌, ℕ, ℤ, Bool, List, Option, Some, None, ◌∷◌, length, decimal, IfSome, IfNone};
ghost use Rattle.std.specs.Fmt.{signed_decimal};
ghost use Rattle.base.specs.declared.event.Act.{Act as Act_spec};
ghost use Rattle.text_fields.specs.Fields.{Is32};
ghost use Rattle.image.specs.declared.names.ImageNames.{ImageNames as ImageNames_spec};
ghost use Rattle.event_log.specs.InRange.{WokenIsIn};
ghost use Rattle.event_log.specs.Line.{condition_name, device_name, truth_text, woken_name};
ghost use Rattle.event_log.specs.Finding.{AreFound};
ghost use Rattle.event_log.specs.Logs.{AreWordNames};
ghost use Rattle.event_log.specs.Parts.{ActIsTold, IsSaid, IsUnsaid, act_words};

use crate::find::{
    NameIndex, Near, find_condition, find_device_near, find_monitor_near, find_process,
};
use crate::verb::{Verb, verb_named};
use base::Act;
use text_fields::fields_number::signed;
use text_fields::{cut_at, is_same, unsigned};

/// A device, and the value that is read or written.
#[derive(Clone, Copy)]
struct Transfer {
    dev: u16,
    value: i32,
}

/// A condition, and what stands behind it.
#[derive(Clone, Copy)]
struct Asked<'a> {
    cond: u16,
    last: &'a [u8],
}

/// A condition and a number.
#[derive(Clone, Copy)]
struct Counted {
    cond: u16,
    number: u16,
}

/// The process that a signal takes out, if any.
#[derive(Clone, Copy)]
struct Woken {
    process: Option<u16>,
}

/// A condition, and the process that a signal takes out.
#[derive(Clone, Copy)]
struct Signal {
    cond: u16,
    woken: Option<u16>,
}

/// A condition, and whether its queue is empty.
#[derive(Clone, Copy)]
struct Empty {
    cond: u16,
    answer: bool,
}

/// The number of 16 bits that the word spells.
fn read_number(word: &[u8]) -> Option<u16>
    ensures found { IfSome result (λ n. word.now ≡ decimal n) }
    ensures none { IfNone result ((n : ℕ) → n < 2 ^ 16 → word.now ≢ decimal n) }
{
    match unsigned(word, 65535) {
        None => None,
        Some(number) => Some(number as u16),
    }
}

/// The truth that the word spells.
fn read_truth(word: &[u8]) -> Option<bool>
    ensures found { IfSome result (λ answer. word.now ≡ truth_text answer) }
    ensures none { IfNone result ((answer : Bool) → word.now ≢ truth_text answer) }
{
    if is_same(word, b"1") {
        return Some(true);
    }
    if is_same(word, b"0") {
        return Some(false);
    }
    None
}

/// The process that the word names, or nobody where it is a dash.
fn read_woken(names: &NameIndex<'_, '_>, word: &[u8]) -> Option<Woken>
    requires found { AreFound names.now }
    ensures within { IfSome result (λ woken. WokenIsIn names.now.names.now woken.process) }
    ensures found { IfSome result (λ woken.
        word.now ≡ woken_name names.now.names.now woken.process) }
    ensures none { IfNone result ((woken : Option ℕ) → WokenIsIn names.now.names.now woken →
        word.now ≢ woken_name names.now.names.now woken) }
{
    if is_same(word, b"-") {
        return Some(Woken { process: None });
    }
    match find_process(names, word) {
        None => None,
        Some(process) => Some(Woken {
            process: Some(process),
        }),
    }
}

/// The device and the value that the bytes spell. The device of the number is tried first.
fn read_transfer(names: &NameIndex<'_, '_>, bytes: &[u8], near: u16) -> Option<Transfer>
    requires words { AreWordNames names.now.names.now }
    requires found { AreFound names.now }
    ensures within { IfSome result (λ t. t.dev < length names.now.names.now.devices) }
    ensures found { IfSome result (λ t.
        bytes.now ≡ device_name names.now.names.now t.dev ++ 32 ∷ signed_decimal t.value) }
    ensures none { IfNone result ((d : ℕ) (value : ℤ) →
        d < length names.now.names.now.devices → Is32 value →
        bytes.now ≢ device_name names.now.names.now d ++ 32 ∷ signed_decimal value) }
{
    match cut_at(bytes, b' ') {
        None => None,
        Some(parts) => match find_device_near(names, parts.before, near) {
            None => None,
            Some(dev) => match signed(parts.after) {
                None => None,
                Some(value) => Some(Transfer { dev, value }),
            },
        },
    }
}

/// The condition that the bytes name, behind its monitor.
fn read_condition(names: &NameIndex<'_, '_>, bytes: &[u8]) -> Option<u16>
    requires words { AreWordNames names.now.names.now }
    requires found { AreFound names.now }
    ensures within { IfSome result (λ c. c < length names.now.names.now.conditions) }
    ensures found { IfSome result (λ c. bytes.now ≡ condition_name names.now.names.now c) }
    ensures none { IfNone result ((c : ℕ) → c < length names.now.names.now.conditions →
        bytes.now ≢ condition_name names.now.names.now c) }
{
    find_condition(names, bytes)
}

/// The first two words of the bytes, with the space between them.
fn front_of<'a>(bytes: &'a [u8], first: &[u8], second: &[u8], rest: &[u8]) -> &'a [u8]
    requires { bytes.now ≡ first.now ++ 32 ∷ (second.now ++ 32 ∷ rest.now) }
    ensures { result.now ≡ first.now ++ 32 ∷ second.now }
{
    &bytes[..first.len() + 1 + second.len()]
}

/// The condition that the bytes begin with, and what stands behind it and a space.
fn read_asked<'a>(names: &NameIndex<'_, '_>, bytes: &'a [u8]) -> Option<Asked<'a>>
    requires words { AreWordNames names.now.names.now }
    requires found { AreFound names.now }
    ensures within { IfSome result (λ asked. asked.cond < length names.now.names.now.conditions) }
    ensures found { IfSome result (λ asked.
        bytes.now ≡ condition_name names.now.names.now asked.cond ++ 32 ∷ asked.last.now) }
    ensures none { IfNone result ((c : ℕ) (last : List ℕ) →
        c < length names.now.names.now.conditions →
        bytes.now ≢ condition_name names.now.names.now c ++ 32 ∷ last) }
{
    match cut_at(bytes, b' ') {
        None => None,
        Some(parts) => match cut_at(parts.after, b' ') {
            None => None,
            Some(more) => match find_condition(
                names,
                front_of(bytes, parts.before, more.before, more.after),
            ) {
                None => None,
                Some(cond) => Some(Asked {
                    cond,
                    last: more.after,
                }),
            },
        },
    }
}

/// The condition and the number that the bytes spell.
fn read_counted(names: &NameIndex<'_, '_>, bytes: &[u8]) -> Option<Counted>
    requires words { AreWordNames names.now.names.now }
    requires found { AreFound names.now }
    ensures within { IfSome result (λ it. it.cond < length names.now.names.now.conditions) }
    ensures found { IfSome result (λ it.
        bytes.now ≡ condition_name names.now.names.now it.cond ++ 32 ∷ decimal it.number) }
    ensures none { IfNone result ((c number : ℕ) →
        c < length names.now.names.now.conditions → number < 2 ^ 16 →
        bytes.now ≢ condition_name names.now.names.now c ++ 32 ∷ decimal number) }
{
    match read_asked(names, bytes) {
        None => None,
        Some(asked) => match read_number(asked.last) {
            None => None,
            Some(number) => Some(Counted {
                cond: asked.cond,
                number,
            }),
        },
    }
}

/// The condition and the process, if any, that the bytes spell.
fn read_signal(names: &NameIndex<'_, '_>, bytes: &[u8]) -> Option<Signal>
    requires words { AreWordNames names.now.names.now }
    requires found { AreFound names.now }
    ensures within { IfSome result (λ it. it.cond < length names.now.names.now.conditions) }
    ensures woken { IfSome result (λ it. WokenIsIn names.now.names.now it.woken) }
    ensures found { IfSome result (λ it.
        bytes.now ≡
        condition_name names.now.names.now it.cond
        ++ 32 ∷ woken_name names.now.names.now it.woken) }
    ensures none { IfNone result ((c : ℕ) (woken : Option ℕ) →
        c < length names.now.names.now.conditions → WokenIsIn names.now.names.now woken →
        bytes.now ≢
        condition_name names.now.names.now c
        ++ 32 ∷ woken_name names.now.names.now woken) }
{
    match read_asked(names, bytes) {
        None => None,
        Some(asked) => match read_woken(names, asked.last) {
            None => None,
            Some(Woken { process }) => Some(Signal {
                cond: asked.cond,
                woken: process,
            }),
        },
    }
}

/// The condition and the truth that the bytes spell.
fn read_empty(names: &NameIndex<'_, '_>, bytes: &[u8]) -> Option<Empty>
    requires words { AreWordNames names.now.names.now }
    requires found { AreFound names.now }
    ensures within { IfSome result (λ it. it.cond < length names.now.names.now.conditions) }
    ensures found { IfSome result (λ it.
        bytes.now ≡ condition_name names.now.names.now it.cond ++ 32 ∷ truth_text it.answer) }
    ensures none { IfNone result ((c : ℕ) (answer : Bool) →
        c < length names.now.names.now.conditions →
        bytes.now ≢ condition_name names.now.names.now c ++ 32 ∷ truth_text answer) }
{
    match read_asked(names, bytes) {
        None => None,
        Some(asked) => match read_truth(asked.last) {
            None => None,
            Some(answer) => Some(Empty {
                cond: asked.cond,
                answer,
            }),
        },
    }
}

/// The act with this verb and nothing behind it.
fn read_bare(verb: Verb) -> Option<Act>
    ensures found { IfSome result (λ a. (names : ImageNames_spec) → IsSaid names verb None a) }
    ensures none { IfNone result ((names : ImageNames_spec) → IsUnsaid names verb None) }
{
    match verb {
        Verb::Release => Some(Act::Release),
        Verb::End => Some(Act::End),
        _ => None,
    }
}

/// The act with this verb and these bytes behind it.
fn read_args(names: &NameIndex<'_, '_>, verb: Verb, bytes: &[u8], near: Near) -> Option<Act>
    requires words { AreWordNames names.now.names.now }
    requires found { AreFound names.now }
    ensures found { IfSome result (λ a. IsSaid names.now.names.now verb (Some bytes.now) a) }
    ensures none { IfNone result (IsUnsaid names.now.names.now verb (Some bytes.now)) }
{
    match verb {
        Verb::Release => None,
        Verb::End => None,
        Verb::TimeOut => match read_counted(names, bytes) {
            None => None,
            Some(Counted { cond, number }) => Some(Act::TimeOut { cond, number }),
        },
        Verb::Get => match read_transfer(names, bytes, near.device) {
            None => None,
            Some(Transfer { dev, value }) => Some(Act::Get { dev, value }),
        },
        Verb::Put => match read_transfer(names, bytes, near.device) {
            None => None,
            Some(Transfer { dev, value }) => Some(Act::Put { dev, value }),
        },
        Verb::Enter => match find_monitor_near(names, bytes, near.monitor) {
            None => None,
            Some(mon) => Some(Act::Enter { mon }),
        },
        Verb::Leave => match find_monitor_near(names, bytes, near.monitor) {
            None => None,
            Some(mon) => Some(Act::Leave { mon }),
        },
        Verb::Wait => match read_condition(names, bytes) {
            None => None,
            Some(cond) => Some(Act::Wait { cond }),
        },
        Verb::Signal => match read_signal(names, bytes) {
            None => None,
            Some(Signal { cond, woken }) => Some(Act::Signal { cond, woken }),
        },
        Verb::Broadcast => match read_counted(names, bytes) {
            None => None,
            Some(Counted { cond, number }) => Some(Act::Broadcast {
                cond,
                count: number,
            }),
        },
        Verb::Empty => match read_empty(names, bytes) {
            None => None,
            Some(Empty { cond, answer }) => Some(Act::Empty { cond, answer }),
        },
        Verb::Raise => match read_number(bytes) {
            None => None,
            Some(number) => Some(Act::Raise { number }),
        },
    }
}

/// The act that the bytes behind a process tell.
pub fn read_act(names: &NameIndex<'_, '_>, bytes: &[u8], near: Near) -> Option<Act>
    requires words { AreWordNames names.now.names.now }
    requires found { AreFound names.now }
    ensures told { IfSome result (λ a. ActIsTold names.now.names.now a) }
    ensures found { IfSome result (λ a. bytes.now ≡ act_words names.now.names.now a) }
    ensures none { IfNone result ((a : Act_spec) → ActIsTold names.now.names.now a →
        bytes.now ≢ act_words names.now.names.now a) }
{
    match cut_at(bytes, b' ') {
        None => match verb_named(bytes) {
            None => None,
            Some(verb) => read_bare(verb),
        },
        Some(parts) => match verb_named(parts.before) {
            None => None,
            Some(verb) => read_args(names, verb, parts.after, near),
        },
    }
}
