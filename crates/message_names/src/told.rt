//! What is told of the name at a place where a rule for names fails.

ghost use Rattle.std.specs.Prelude.{◌≡◌, IfOk};
ghost use Rattle.syntax_tree.specs.Placed.{placed};
ghost use Rattle.message_names.specs.Told.{name_notes, name_sentence};

use crate::declarations::mentions;
use crate::errors::tri;
use crate::lookup::mention_at;
use crate::notes::add_notes;
use crate::sentences::add_sentence;
use out_of_memory::OutOfMemory;
use std::alloc::Global;
use syntax_tree::{Place, Program, Text};

/// The sentence that tells what is wrong with the name at this place by the rule of this number;
/// `None` where no name stands there. By number: 20 of a name that is declared nowhere in reach; 21
/// of one that is declared where it is in reach already; 22 of one that is of the wrong kind; 23 of
/// a closing name that differs. The only error is want of memory.
#[tactic(auto, unfolding(crate::specs::Told::name_sentence))]
pub fn name_sentence(
    alloc: Global,
    program: &Program,
    number: u8,
    place: Place,
) -> Result<Option<Text>, OutOfMemory>
    ensures { IfOk result (λ told. told ≡ name_sentence (placed program.now) number place) }
{
    let mentions = tri!(mentions(alloc, program));
    let Some(mention) = mention_at(&mentions, place) else {
        return Ok(None);
    };
    let mut sentence = Text::new(alloc);
    tri!(add_sentence(&mut sentence, number, &mentions, &mention));
    Ok(Some(sentence))
}

/// The notes on the name at this place of the text, which is wrong by the rule of this number: each
/// in a line of its own, with the line of the declaration that it speaks of. The only error is want
/// of memory.
#[tactic(auto, unfolding(crate::specs::Told::name_notes))]
pub fn name_notes(
    alloc: Global,
    text: &[u8],
    program: &Program,
    number: u8,
    place: Place,
) -> Result<Text, OutOfMemory>
    ensures { IfOk result (λ notes.
        notes ≡ name_notes text.now (placed program.now) number place) }
{
    let mentions = tri!(mentions(alloc, program));
    let mut notes = Text::new(alloc);
    if let Some(mention) = mention_at(&mentions, place) {
        tri!(add_notes(alloc, &mut notes, text, number, &mentions, &mention));
    }
    Ok(notes)
}
