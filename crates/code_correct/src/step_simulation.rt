//! Law: the code of one process does, step by step, what the meaning of programs says.
//!
//! `specs/Process.antt` says when code and words of a process stand for its calls. Promised: where
//! the image has the code of the process and of the routines that it runs, and the text keeps to
//! the static rules, the code is faithful as the law of whole runs asks it.
//!
//! The law.

ghost use Rattle.code_correct.specs.Process.{EmittedIsFaithful};

/// The code of a process that is that of its text does, with each of its ticks, what the meaning of
/// programs says next.
pub fn emitted_code_is_faithful()
    ensures { EmittedIsFaithful }
{}
