//! The sentence for a rule that fails at a place.

ghost use Rattle.std.specs.Prelude.{◌≡◌, IfOk};
ghost use Rattle.syntax_tree.specs.Placed.{placed};
ghost use Rattle.message_conduct.specs.Conduct.{conduct_sentence};

use crate::search::first_stray;
use crate::sentences::add_sentence;
use out_of_memory::OutOfMemory;
use static_declarations::Declarations;
use static_rule::Violation;
use std::alloc::Global;
use syntax_tree::{Place, Text};

/// The sentence that tells what is wrong with the first statement or result where the rule with this
/// number fails at this place: 34 of what stands where it may not, 38 of a device that has the other
/// direction. `None` where neither does. The only error is want of memory.
pub fn conduct_sentence(
    alloc: Global,
    declarations: &Declarations<'_>,
    number: u8,
    place: Place,
) -> Result<Option<Text>, OutOfMemory>
    ensures { IfOk result (λ told. told ≡ conduct_sentence (placed declarations.now) number place) }
{
    let broken = Violation { number, place };
    let Some(stray) = first_stray(declarations, broken) else {
        return Ok(None);
    };
    let mut sentence = Text::new(alloc);
    add_sentence(
        &mut sentence,
        alloc,
        declarations.program().decls.as_slice(),
        stray,
    )?;
    Ok(Some(sentence))
}
