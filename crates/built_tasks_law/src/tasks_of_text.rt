//! Laws: the blocks and the tasks of an image are those of the text of its program.
//!
//! `specs/Tasks.antt` has them. Validity takes the longest stays of the entries that the code of a
//! process reaches by its CALL instructions; the text has those of the entries that it comes to by
//! its calls. Nothing here can run.
//!
//! The laws.

ghost use Rattle.built_tasks_law.specs.Tasks.{BlocksAreOfTheText, RanksAreOfTheText, TasksAreOfTheText};

use crate::calls_in_code::{processes_call_their_texts, routines_call_their_texts};
use crate::ranks_and_ceilings::{ceilings_are_of_the_meaning, ranks_are_of_the_meaning};
use built_image_law::generated_within_limits::generated_code_is_code;
use built_image_law::premises_of_laws::checked_programs_are_ready;

/// The block that validity needs for a rank is that of the text.
pub fn blocks_are_of_the_text()
    ensures { BlocksAreOfTheText }
{
    routines_call_their_texts();
    processes_call_their_texts();
    ranks_are_of_the_meaning();
    ceilings_are_of_the_meaning();
}

/// The rank that the image of a checked program declares of a process is that of the text.
pub fn ranks_are_of_the_text()
    ensures { RanksAreOfTheText }
{
    generated_code_is_code();
    ranks_are_of_the_meaning();
}

/// The tasks that the image of a checked program declares are those of the text.
pub fn tasks_are_of_the_text()
    ensures { TasksAreOfTheText }
{
    checked_programs_are_ready();
    generated_code_is_code();
    ranks_are_of_the_text();
    blocks_are_of_the_text();
}
