//! Laws: the operands of each instruction of a well-formed text are in range.
//!
//! `specs/Fine.antt` says what is asked of the image: what is outside the text lies where its code
//! finds it, and what it calls may be called. `specs/Texts.antt` has the laws, of routines and of
//! processes. Nothing here can run.
//!
//! The laws.

ghost use Rattle.built_valid_law.specs.Texts.{RoutinesAreFine, ProcessesAreFine};

/// The operands of each instruction of a routine are in range.
pub fn routines_are_fine()
    ensures { RoutinesAreFine }
{}

/// So are those of a process.
pub fn processes_are_fine()
    ensures { ProcessesAreFine }
{}
