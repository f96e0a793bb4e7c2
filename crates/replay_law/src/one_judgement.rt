//! Law: what is due of `replay` is one.
//!
//! `command_due` says what is due of the texts of a program, of a script and of a log, as a
//! relation. `specs/Once.antt` has that no two outcomes are due of the same files: a text is that
//! of one program or has one fault, it is one script or has one fault, it is the log of one list of
//! events or has one fault, and of one list of events one line is refused, or none is. Nothing here
//! can run.
//!
//! The laws.

ghost use Rattle.replay_law.specs.Once.{JudgementsAreOne, ReplayIsOne};

use crate::names_unambiguous::names_of_programs_are_sound;
use command_due_law::one_answer::{texts_have_one_fault, written_once, written_or_faulty};
use event_log::one_log;
use script::{one_answer, one_script};
use source_semantics_law::determinism::steps_are_determined;

/// What the log of a program over a script comes to is one.
pub fn judgements_are_one()
    ensures { JudgementsAreOne }
{
    names_of_programs_are_sound();
    one_log();
    steps_are_determined();
}

/// What is due of `replay` is one.
pub fn replay_is_one()
    ensures { ReplayIsOne }
{
    written_once();
    written_or_faulty();
    texts_have_one_fault();
    one_script();
    one_answer();
    judgements_are_one();
}
