//! One line of a script.

ghost use Rattle.std.specs.Prelude.{◌≡◌, ◌≢◌, ◌<◌, ℕ, ℤ, List, [], ◌∷◌, IfSome, IfNone};
ghost use Rattle.std.specs.Fmt.{signed_decimal};
ghost use Rattle.text_fields.specs.Fields.{IsWord, Is32, Lacks, spaced};
ghost use Rattle.script.specs.Saying.{Said};
ghost use Rattle.script.specs.Reading.{IsTimed, Says, seen};

use text_fields::fields_number::signed;
use text_fields::{cut_at, is_same, is_word, unsigned};

/// What a line says, its names as they are spelled.
#[derive(Clone, Copy)]
pub enum Line<'a> {
    Set {
        tick: u64,
        dev: &'a [u8],
        value: i32,
    },
    Event {
        tick: u64,
        name: &'a [u8],
    },
    End {
        tick: u64,
    },
}

/// The device and the value that a device is set to.
#[derive(Clone, Copy)]
struct Setting<'a> {
    dev: &'a [u8],
    value: i32,
}

/// The greatest tick of a line.
pub const LAST_TICK: u64 = 999_999_999;

/// The greatest end of a run.
const LAST_END: u64 = 1_000_000_000;

/// The device and the value that bytes without LF spell.
fn read_setting(bytes: &[u8]) -> Option<Setting<'_>>
    requires { Lacks 10 bytes.now }
    ensures word { IfSome result (λ s. IsWord s.dev.now) }
    ensures found { IfSome result (λ s.
        bytes.now ≡ spaced (s.dev.now ∷ signed_decimal s.value ∷ [])) }
    ensures none { IfNone result ((dev : List ℕ) (value : ℤ) → IsWord dev → Is32 value →
        bytes.now ≢ spaced (dev ∷ signed_decimal value ∷ [])) }
{
    match cut_at(bytes, b' ') {
        None => None,
        Some(parts) => {
            if !is_word(parts.before) {
                return None;
            }
            match signed(parts.after) {
                None => None,
                Some(value) => Some(Setting {
                    dev: parts.before,
                    value,
                }),
            }
        }
    }
}

/// What a line with this tick says, by what stands behind the tick.
fn timed(tick: u64, bytes: &[u8]) -> Option<Line<'_>>
    requires tick { tick < 1000000000 }
    requires line { Lacks 10 bytes.now }
    ensures found { IfSome result (λ line. IsTimed tick bytes.now (seen line)) }
    ensures none { IfNone result ((said : Said) → ¬ IsTimed tick bytes.now said) }
{
    match cut_at(bytes, b' ') {
        None => None,
        Some(parts) => {
            if is_same(parts.before, b"set") {
                return match read_setting(parts.after) {
                    None => None,
                    Some(Setting { dev, value }) => Some(Line::Set { tick, dev, value }),
                };
            }
            if !is_same(parts.before, b"event") {
                return None;
            }
            if !is_word(parts.after) {
                return None;
            }
            Some(Line::Event {
                tick,
                name: parts.after,
            })
        }
    }
}

/// What a line says, which is given without its LF; None where it is in no form.
pub fn read_line(line: &[u8]) -> Option<Line<'_>>
    requires { Lacks 10 line.now }
    ensures found { IfSome result (λ found. Says line.now (seen found)) }
    ensures none { IfNone result ((said : Said) → ¬ Says line.now said) }
{
    match cut_at(line, b' ') {
        None => None,
        Some(parts) => {
            if is_same(parts.before, b"end") {
                return match unsigned(parts.after, LAST_END) {
                    None => None,
                    Some(tick) => Some(Line::End { tick }),
                };
            }
            match unsigned(parts.before, LAST_TICK) {
                None => None,
                Some(tick) => timed(tick, parts.after),
            }
        }
    }
}
