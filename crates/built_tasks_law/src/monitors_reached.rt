//! Laws: the monitors that the code of a process enters, and those that its text uses by the
//! meaning of programs, are those whose entries its text comes to by calls.
//!
//! `specs/Touches.antt` says which monitors a text comes to. Validity finds them by the CALL
//! instructions of the code, routine after routine; the meaning of programs by the statements,
//! procedure in procedure. Nothing here can run.
//!
//! The laws.

ghost use Rattle.built_tasks_law.specs.Touches.{CodeEntersWhatTextsTouch, TextsUseWhatTheyTouch};

use crate::calls_in_code::{processes_call_their_texts, routines_call_their_texts};

/// The code of a process reaches the entries that its text comes to.
pub fn code_enters_what_texts_touch()
    ensures { CodeEntersWhatTextsTouch }
{
    routines_call_their_texts();
    processes_call_their_texts();
}

/// The monitors that a process uses, by the meaning of programs, are those whose entries its text
/// comes to.
pub fn texts_use_what_they_touch()
    ensures { TextsUseWhatTheyTouch }
{}
