//! Laws: the CALL instructions in the code of a routine or of a process are those of the calls in
//! its text.
//!
//! `specs/Calls.antt` says it by tests: a number in a CALL of the piece passes a test just where
//! the number of a text that is called does. With it all that validity reaches through the code is
//! what the text reaches. Nothing here can run.
//!
//! The laws.

ghost use Rattle.built_tasks_law.specs.Calls.{RoutinesCallTheirTexts, ProcessesCallTheirTexts};

/// The piece of a routine's code calls the routines that its text calls.
pub fn routines_call_their_texts()
    ensures { RoutinesCallTheirTexts }
{}

/// The piece of a process's code calls the routines that its body and its handler call.
pub fn processes_call_their_texts()
    ensures { ProcessesCallTheirTexts }
{}
