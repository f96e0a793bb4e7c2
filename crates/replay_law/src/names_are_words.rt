//! Law: the names of a program text are identifiers, and so words of a line.
//!
//! `specs/Words.antt` says of a program that its name and those of its processes, monitors,
//! conditions, devices and events are identifiers, as the tokens of a text have them. So it is with
//! the program of each text. An identifier has neither a space nor a line feed, so the names of the
//! program's parts are words, as a log needs them. Nothing here can run.
//!
//! The laws.

ghost use Rattle.replay_law.specs.Words.{NamesOfTextsAreIdentifiers, NamesOfTextsAreWords};

use syntax::tokens_in_order;

/// The name of the program of a text, and those of its processes, monitors, conditions, devices and
/// events, are identifiers.
pub fn names_of_texts_are_identifiers()
    ensures { NamesOfTextsAreIdentifiers }
{
    tokens_in_order();
}

/// The names of the parts of the program of a text are words, and each condition stands in a
/// monitor.
pub fn names_of_texts_are_words()
    ensures { NamesOfTextsAreWords }
{
    names_of_texts_are_identifiers();
}
