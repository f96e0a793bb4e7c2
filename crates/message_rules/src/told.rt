//! The sentence for a rule that fails at a place.

ghost use Rattle.std.specs.Prelude.{◌≡◌, IfOk};
ghost use Rattle.syntax_tree.specs.Placed.{placed};
ghost use Rattle.message_rules.specs.Findings.{findings, first_wrong, rule_sentence};

use crate::fault::Fault;
use crate::sentences::add_sentence;
use crate::{activations, bounds, counts, events, handlers, statements};
use out_of_memory::OutOfMemory;
use static_declarations::Declarations;
use static_names::ResolvedProgram;
use static_rule::Violation;
use std::alloc::Global;
use syntax_tree::{Place, Text};

/// What is wrong by the rule with that number at that place, if it fails there.
fn fault_at(
    alloc: Global,
    declarations: &Declarations<'_>,
    broken: Violation,
) -> Result<Option<Fault>, OutOfMemory>
    ensures { IfOk result (λ fault. fault ≡ first_wrong broken (findings (placed declarations.now))) }
{
    let mut known = None;
    statements::look(&mut known, declarations, broken);
    bounds::look(&mut known, declarations, broken);
    activations::look(&mut known, declarations, broken);
    events::look(&mut known, declarations, broken);
    handlers::look(&mut known, declarations, broken);
    counts::look(alloc, &mut known, declarations, broken)?;
    Ok(known)
}

/// The sentence that tells what is wrong by the rule with this number at this place, with the
/// values and names of the program; `None` where none of these rules with that number fails there.
/// By number: 32 and 44 of the bounds of a type, and 32 and 33 of a loop; 35 of a number that a
/// handler lists twice; 36 of a frame, a deadline or a first activation; 37 of an event; 39 of the
/// number of an exception that is raised or handled; 40 to 42 of no process, or of the thing that is
/// one too many; 43 of the words of variables; 45 of the limit of a wait. The only error is want of
/// memory.
pub fn rule_sentence(
    alloc: Global,
    program: &ResolvedProgram,
    number: u8,
    place: Place,
) -> Result<Option<Text>, OutOfMemory>
    ensures { IfOk result (λ told. told ≡ rule_sentence (placed program.now) number place) }
{
    let declarations = Declarations::new(alloc, program)?;
    let broken = Violation { number, place };
    let Some(fault) = fault_at(alloc, &declarations, broken)? else {
        return Ok(None);
    };
    let mut sentence = Text::new(alloc);
    add_sentence(&mut sentence, program.prog().decls.as_slice(), fault)?;
    Ok(Some(sentence))
}
