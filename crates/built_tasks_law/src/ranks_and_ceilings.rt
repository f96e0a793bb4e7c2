//! Laws: the ranks and ceilings that validity asks of an image are those of the meaning of its
//! program.
//!
//! `specs/Ranks.antt` has them: ranks, since deadlines are equal; ceilings, since the code of a
//! process enters the monitors that its text uses. Nothing here can run.
//!
//! The laws.

ghost use Rattle.built_tasks_law.specs.Ranks.{CeilingsAreOfTheMeaning, RanksAreOfTheMeaning};

use crate::monitors_reached::{code_enters_what_texts_touch, texts_use_what_they_touch};

/// The rank that validity asks is that of the meaning.
pub fn ranks_are_of_the_meaning()
    ensures { RanksAreOfTheMeaning }
{}

/// The ceiling that validity asks is that of the meaning.
pub fn ceilings_are_of_the_meaning()
    ensures { CeilingsAreOfTheMeaning }
{
    code_enters_what_texts_touch();
    texts_use_what_they_touch();
    ranks_are_of_the_meaning();
}
