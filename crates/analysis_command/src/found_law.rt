//! Law: what is found in the code is what the text says.
//!
//! `specs/Found.antt` has it. Nothing here can run.
//!
//! The laws.

ghost use Rattle.analysis_command.specs.Found.{FoundIsTheBlocker};

use built_tasks_law::calls_in_code::{processes_call_their_texts, routines_call_their_texts};
use built_tasks_law::ranks_and_ceilings::{ceilings_are_of_the_meaning, ranks_are_of_the_meaning};

/// What is reached first from the processes below a rank makes its block, and where nothing is
/// reached the block is 0.
pub fn what_is_found_is_the_blocker()
    ensures { FoundIsTheBlocker }
{
    routines_call_their_texts();
    processes_call_their_texts();
    ranks_are_of_the_meaning();
    ceilings_are_of_the_meaning();
}
