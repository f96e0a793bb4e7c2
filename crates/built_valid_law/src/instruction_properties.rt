//! Laws: each instruction of the code of a program has a property that the program's text gives.
//!
//! `specs/Has.antt` says, by cases over the text, what it takes that each instruction of a
//! statement, a routine or a process passes a test; a branch must pass it whatever its address.
//! `specs/Kept.antt` has the laws: then each instruction in the code passes, and each that belongs
//! to the piece of the text in the image of the program. Nothing here can run.
//!
//! The laws.

ghost use Rattle.built_valid_law.specs.Kept.{StatementsKeep, RoutinesKeep, ProcessesKeep, RoutinesOwnTheirCode, ProcessesOwnTheirCode, RoutinePiecesKeep, ProcessPiecesKeep};

/// Each instruction of statements passes a test that the statements pass.
pub fn statements_keep()
    ensures { StatementsKeep }
{}

/// Each instruction of a routine does.
pub fn routines_keep()
    ensures { RoutinesKeep }
{}

/// Each instruction of a process, its handler with it.
pub fn processes_keep()
    ensures { ProcessesKeep }
{}

/// An address that belongs to the piece of a routine lies in the code of the routine.
pub fn routines_own_their_code()
    ensures { RoutinesOwnTheirCode }
{}

/// An address that belongs to the piece of a process lies in the code of the process.
pub fn processes_own_their_code()
    ensures { ProcessesOwnTheirCode }
{}

/// Each instruction that belongs to the piece of a routine passes a test that the routine passes.
pub fn routine_pieces_keep()
    ensures { RoutinePiecesKeep }
{}

/// Each instruction that belongs to the piece of a process passes a test that the process passes.
pub fn process_pieces_keep()
    ensures { ProcessPiecesKeep }
{}
