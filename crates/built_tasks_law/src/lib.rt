//! Laws: ranks, ceilings and tasks of an image are those of its text.
//!
//! `tasks_of_text`: the blocks and the tasks that the image of a checked program declares are those
//! of the text, as `sched_program` tells them. `judged_by_text`: so *timely*, *late* and the bounds
//! of the image are those of the text.
//!
//! Ranks and ceilings of the image are those of the program's meaning: the code calls what its text
//! calls (`calls_in_code`) and enters the monitors that its text comes to (`monitors_reached`), so
//! the ranks and ceilings that validity asks are those of the meaning (`ranks_and_ceilings`), and
//! the code of a checked program with these is its image (`image_of_program`). Nothing here can
//! run.
#![tactic(auto)]

pub mod calls_in_code;
pub mod image_of_program;
pub mod judged_by_text;
pub mod monitors_reached;
pub mod ranks_and_ceilings;
pub mod tasks_of_text;
