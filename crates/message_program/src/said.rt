//! What is said, with the rule's numbers and names, where a static rule fails.

ghost use Rattle.std.specs.Prelude.{IfOk};
ghost use Rattle.message_conduct.specs.Told.{IsCallTold};
ghost use Rattle.message_conduct.specs.Conduct.{conduct_sentence};
ghost use Rattle.message_program.specs.Program.{IsSaid, OrElse};
ghost use Rattle.message_types.specs.Told.{type_sentence};
ghost use Rattle.syntax_tree.specs.Placed.{placed};

use message_conduct::{call_sentence, conduct_sentence};
use message_rules::rule_sentence;
use message_types::type_sentence;
use out_of_memory::OutOfMemory;
use static_declarations::Declarations;
use static_names::ResolvedProgram;
use std::alloc::Global;
use syntax_tree::{Place, Text};

/// What is said of what stands where it may not, and else of a call.
fn said_of_statements(
    alloc: Global,
    declarations: &Declarations<'_>,
    number: u8,
    place: Place,
) -> Result<Option<Text>, OutOfMemory>
    ensures { IfOk result (λ said. OrElse (conduct_sentence (placed declarations.now) number place)
        (IsCallTold (placed declarations.now) number place) said) }
{
    if let Some(sentence) = conduct_sentence(alloc, declarations, number, place)? {
        return Ok(Some(sentence));
    }
    call_sentence(alloc, declarations, number, place)
}

/// What is said of what does not agree, and else of what stands where it may not, and of a call.
fn said_of_types(
    alloc: Global,
    declarations: &Declarations<'_>,
    number: u8,
    place: Place,
) -> Result<Option<Text>, OutOfMemory>
    ensures { IfOk result (λ said. OrElse (type_sentence (placed declarations.now) number place)
        (OrElse (conduct_sentence (placed declarations.now) number place)
        (IsCallTold (placed declarations.now) number place)) said) }
{
    if let Some(sentence) = type_sentence(alloc, declarations, number, place)? {
        return Ok(Some(sentence));
    }
    said_of_statements(alloc, declarations, number, place)
}

/// What is said of a number, and else of types, statements and calls.
pub(crate) fn said(
    alloc: Global,
    program: &ResolvedProgram,
    number: u8,
    place: Place,
) -> Result<Option<Text>, OutOfMemory>
    ensures { IfOk result (λ said. IsSaid (placed program.now) number place said) }
{
    if let Some(sentence) = rule_sentence(alloc, program, number, place)? {
        return Ok(Some(sentence));
    }
    let declarations = Declarations::new(alloc, program)?;
    said_of_types(alloc, &declarations, number, place)
}
