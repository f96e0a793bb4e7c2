//! The next line of a script.

ghost use Rattle.std.specs.Prelude.{◌≡◌, ◌<◌, ℕ, List, length, IfSome, IfNone, IfOk, IfErr};
ghost use Rattle.script.specs.Saying.{Said, Begins};
ghost use Rattle.script.specs.Scripts.{event_number, in_device};
ghost use Rattle.script.specs.Faults.{IsLineFault, flaw_fault};
ghost use Rattle.script.specs.Reading.{AreNumbers, IsNext, IsPast, seen};
ghost use Rattle.script.specs.declared.fault.ScriptFault.TheVariants.{Bad};

use crate::fault::{Flaw, ScriptFault};
use crate::line::{Line, read_line};
use crate::numbers::SymbolNumbers;
use crate::past::Past;
use crate::quick::{First, quick_line};
use crate::refusal;
use crate::script::ScriptLine;
use image::ImageNames;
use text_fields::cut_at;

/// What the first line of some bytes means, and the bytes after it.
#[derive(Clone, Copy)]
pub enum NextLine<'a> {
    Line { line: ScriptLine, rest: &'a [u8] },
    End { tick: u64, rest: &'a [u8] },
}

/// A fault with no ticks.
pub fn bad(number: u8, line: u32) -> ScriptFault
    ensures { result ≡ Bad number line 0 0 }
{
    ScriptFault::Bad {
        number,
        line,
        a: 0,
        b: 0,
    }
}

/// The fault of a flaw on a line.
fn fault(line: u32, flaw: Flaw) -> ScriptFault
    ensures { result ≡ flaw_fault line flaw }
{
    match flaw {
        Flaw::Unknown => bad(refusal::UNKNOWN, line),
        Flaw::Early => bad(refusal::EARLY, line),
        Flaw::Soon { last, tick } => ScriptFault::Bad {
            number: refusal::SOON,
            line,
            a: last,
            b: tick,
        },
    }
}

/// The first line of the bytes; None where it is in no form.
#[inline(never)]
fn first_line(bytes: &[u8]) -> Option<First<'_>>
    ensures found { IfSome result (λ first. Begins bytes.now (seen first.line) first.rest.now) }
    ensures none { IfNone result ((said : Said) (rest : List ℕ) → ¬ Begins bytes.now said rest) }
{
    match cut_at(bytes, b'\n') {
        None => None,
        Some(parts) => match read_line(parts.before) {
            None => None,
            Some(line) => Some(First {
                line,
                rest: parts.after,
            }),
        },
    }
}

/// The same, which tries first whether the line is in a form that most lines have.
#[inline(always)]
fn next_line(bytes: &[u8]) -> Option<First<'_>>
    ensures found { IfSome result (λ first. Begins bytes.now (seen first.line) first.rest.now) }
    ensures none { IfNone result ((said : Said) (rest : List ℕ) → ¬ Begins bytes.now said rest) }
{
    match quick_line(bytes) {
        None => first_line(bytes),
        Some(first) => Some(first),
    }
}

/// What the first line of the bytes means after the lines read so far, or its fault.
#[inline(always)]
pub fn judge_next<'a>(
    names: &ImageNames,
    devices: &SymbolNumbers<'_>,
    events: &SymbolNumbers<'_>,
    past: &Past,
    bytes: &'a [u8],
    number: u32,
) -> Result<NextLine<'a>, ScriptFault>
    requires some { 0 < length bytes.now }
    requires past { IsPast names.now past.now.lines past.now.last past.now.occurred.items }
    requires devices { AreNumbers devices.now.entries (in_device names.now) }
    requires events { AreNumbers events.now.entries (event_number names.now) }
    ensures next { IfOk result (λ next. IsNext names.now past.now.lines bytes.now next) }
    ensures fault { IfErr result (λ fault.
        IsLineFault names.now past.now.lines bytes.now number fault) }
{
    match next_line(bytes) {
        None => Err(bad(refusal::FORM, number)),
        Some(First { line, rest }) => match past.judge(names, devices, events, line) {
            Err(flaw) => Err(fault(number, flaw)),
            Ok(Some(line)) => Ok(NextLine::Line { line, rest }),
            Ok(None) => match line {
                Line::End { tick } => Ok(NextLine::End { tick, rest }),
                _ => Err(bad(refusal::FORM, number)),
            },
        },
    }
}
