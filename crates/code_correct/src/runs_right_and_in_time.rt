//! The runs of the image of a program, over scripts that respect its frames: they are runs of the
//! program, and in time.
//!
//! `specs/Headline.antt` has the premises and the law, `headline` states it, and `example` has a program
//! with a monitor, a wait, a signal and a handler whose image meets them over every script. Nothing
//! here can run.
//!
//! The law.

ghost use Rattle.code_correct.specs.Headline.{ProgramsRunRightAndInTime, ProperCodeIsRight, RunsAreRightAndInTime, WellFormedCodeIsRight, WellFormedProgramsRun};

/// Every run of the image of a program over a script that respects its frames is a source run of
/// the program, and in time.
pub fn runs_are_right_and_in_time()
    ensures { RunsAreRightAndInTime }
{}

/// The code of a program that keeps to the static rules is right.
pub fn proper_code_is_right()
    ensures { ProperCodeIsRight }
{}

/// Every run of the image of a program that keeps to the static rules is a run of the program, and
/// in time.
pub fn programs_run_right_and_in_time()
    ensures { ProgramsRunRightAndInTime }
{}

/// The code of a well-formed program is right.
pub fn well_formed_code_is_right()
    ensures { WellFormedCodeIsRight }
{}

/// Every run of the image of a well-formed program, over a script that respects its frames, is a
/// run of the program, and in time.
pub fn well_formed_programs_run()
    ensures { WellFormedProgramsRun }
{}
