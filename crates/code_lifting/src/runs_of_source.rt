//! The run of the image of a program is a run of the program.
//!
//! `specs/Image.antt` has the premises: the image is that of the program, and the code of each
//! process is right. `compiled` states what follows, and
//! `example` gives a program with a monitor, a wait, a signal and a handler whose image meets them.
//! Nothing here can run.
//!
//! The law.
//!
//! It is a statement of `specs/Image.antt`, with the premises `IsImageOf` (the image is that of the
//! program) and `AreRight` (the code of each process does what the source meaning has next).

ghost use Rattle.code_lifting.specs.Image.{RunsAreSourceRuns};

/// The events of each run of the image of a program, without overrun, are a source run of the
/// program.
pub fn runs_are_source_runs()
    ensures { RunsAreSourceRuns }
{}
