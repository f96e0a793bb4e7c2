//! Law: the names of a program that keeps to the rules can tell events without doubt.
//!
//! A text is the log of one list of events where the names are words, none of a process is a dash,
//! and no two of a kind are the same (`AreUnambiguous` of `event_log`). So it is with the names of
//! the parts of each program that keeps to the rules for names, since none of its names is declared
//! twice in one scope. Nothing here can run.
//!
//! The law.

ghost use Rattle.replay_law.specs.SoundNames.{NamesOfProgramsAreSound};

use crate::names_are_words::{names_of_texts_are_identifiers, names_of_texts_are_words};
use wellformed_law::{declarations_are_listed, names_are_found};

/// The names of the parts of the program of a text are words, none of a process is a dash, and no
/// two of a kind are the same.
pub fn names_of_programs_are_sound()
    ensures { NamesOfProgramsAreSound }
{
    names_are_found();
    declarations_are_listed();
    names_of_texts_are_identifiers();
    names_of_texts_are_words();
}
