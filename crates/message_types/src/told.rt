//! What is told of a place.

ghost use Rattle.std.specs.Prelude.{◌≡◌, IfOk};
ghost use Rattle.syntax_tree.specs.Placed.{placed};
ghost use Rattle.message_types.specs.Told.{type_sentence};

use crate::search::first_mismatch;
use crate::sentences::add_sentence;
use out_of_memory::OutOfMemory;
use static_declarations::Declarations;
use static_rule::rule;
use std::alloc::Global;
use syntax_tree::{Place, Text};

/// The sentence that tells what does not agree in the first statement or result at this place for
/// which the rule for types and numbers of arguments fails, where the number is that of this rule
/// (30). `None` where it fails for none there, and for other numbers. The only error is want of
/// memory.
pub fn type_sentence(
    alloc: Global,
    declarations: &Declarations<'_>,
    number: u8,
    place: Place,
) -> Result<Option<Text>, OutOfMemory>
    ensures { IfOk result (λ told. told ≡ type_sentence (placed declarations.now) number place) }
{
    if number != rule::WRONG_TYPE {
        return Ok(None);
    }
    let Some(mismatch) = first_mismatch(declarations, place) else {
        return Ok(None);
    };
    let mut sentence = Text::new(alloc);
    add_sentence(alloc, &mut sentence, mismatch)?;
    Ok(Some(sentence))
}
