//! The code of a text, and its last line.

ghost use Rattle.std.specs.Prelude.{◌≡◌, not, nat_eq};
ghost use Rattle.std.specs.List.{list_any};
ghost use Rattle.image_reader.specs.File.{all_used};
ghost use Rattle.asm_lines.specs.Instrs.{instr_read};
ghost use Rattle.text_fields.specs.Front.{Gives, front};
ghost use Rattle.assembler.specs.Sections.{code_read, finish_read, is_end as end_test, last_read, no_more};
ghost use Rattle.assembler.specs.Refusal.{Refuses};

use asm_lines::instr_line;
use machine_isa::Instr;
use std::alloc::Global;
use syntax_tree::List;
use text_fields::{FieldError, FieldFault, LineCursor, begins_with, end_line, refusal, skip};

/// How many instructions there are at most.
const MOST_INSTRS: usize = 65_535;

/// Whether an event is used.
fn is_used(used: &[u16], event: usize) -> bool
    ensures { result ≡ list_any (λ e. nat_eq e event) used.now }
{
    used.iter().any(|other| usize::from(*other) == event)
}

/// Whether each of so many events is used.
#[tactic(auto, using(image_reader::proofs::Ends::one_more_used))]
pub fn are_used(used: &[u16], events: usize) -> bool
    ensures { result ≡ all_used used.now 0 events }
{
    for event in 0..events {
        if !is_used(used, event) {
            return false;
        }
    }
    true
}

/// Whether the line is the last one.
fn is_end(bytes: &[u8]) -> bool
    ensures { result ≡ end_test bytes.now }
{
    begins_with(bytes, b"end\n")
}

/// The fault of a line after the processes, where there must be none.
#[tactic(auto, unfolding(crate::specs::Sections::none_read))]
fn no_line(at: LineCursor<'_>) -> FieldError
    ensures { Refuses result (front at.entry) }
{
    let wrong = FieldError::Fault(FieldFault {
        number: refusal::RANGE,
        left: at.start,
    });
    if is_end(at.rest) {
        return wrong;
    }
    match instr_line(at) {
        Ok(_) => wrong,
        Err(e) => e,
    }
}

/// No more instructions stand here.
fn no_instr(at: LineCursor<'_>) -> Result<LineCursor<'_>, FieldError>
    ensures { Gives front result (no_more (λ bytes. not (end_test bytes)) instr_read
        (front at.entry)) }
{
    if is_end(at.rest) {
        return Ok(at);
    }
    instr_line(at)?;
    Err(FieldError::Fault(FieldFault {
        number: refusal::RANGE,
        left: at.start,
    }))
}

/// The instructions, where the processes are complete.
pub fn code_at(
    alloc: Global,
    at: LineCursor<'_>,
    is_complete: bool,
) -> Result<(List<Instr>, LineCursor<'_>), FieldError>
    ensures { Gives (λ x. (x.0, front x.1)) result (code_read is_complete (front at.entry)) }
{
    if !is_complete {
        return Err(no_line(at));
    }
    let mut code = List::new(alloc);
    let mut place = at;
    for _ in 0..MOST_INSTRS {
        if is_end(place.rest) {
            return Ok((code, place));
        }
        let (instr, after) = instr_line(place)?;
        code.push(instr)?;
        place = after;
    }
    let place = no_instr(place)?;
    Ok((code, place))
}

/// The last line.
#[tactic(auto, unfolding(crate::specs::Sections::last_read))]
fn last_line(at: LineCursor<'_>) -> Result<LineCursor<'_>, FieldError>
    ensures { Gives front result (last_read (front at.entry)) }
{
    let at = skip(at, b"end")?;
    end_line(at)
}

/// The last line, and nothing after it.
#[tactic(auto, unfolding(crate::specs::Sections::finish_read))]
pub fn finish(at: LineCursor<'_>) -> Result<LineCursor<'_>, FieldError>
    ensures { Gives front result (finish_read (front at.entry)) }
{
    let at = last_line(at)?;
    if at.rest.len() == 0 {
        Ok(at)
    } else {
        Err(FieldError::Fault(FieldFault {
            number: refusal::FORM,
            left: at.start,
        }))
    }
}
