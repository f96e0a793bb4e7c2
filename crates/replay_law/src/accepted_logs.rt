//! Law: of the log of every accepted program, `run` is due of `replay`.
//!
//! `command_due` says what is due of `replay`. `specs/ReplayLaws.antt` has that it is the line that
//! counts the events, wherever the files hold the text of a program that is accepted, a script for
//! it, and the log of its run over the script: so it is after each call of `go` that answers 0, as
//! long as the log is no longer than a log may be. Nothing here can run.
//!
//! The laws.

ghost use Rattle.replay_law.specs.ReplayLaws.{LogsOfAcceptedProgramsAreRuns, LogsOfGoAreRuns, LogsOfRunsAreLogs};

use crate::event_numbers_fit::valid_runs_fit;
use crate::names_are_words::names_of_texts_are_words;
use crate::operand_words::made_code_has_words;
use built_valid_law::runnable_image::built_images_are_ready;
use vm_law::events_have_lines::valid_runs_have_lines;

/// What is put of a run of the image of an accepted program is the log of its events, by the names
/// of the program, where it is not too long.
pub fn logs_of_runs_are_logs()
    ensures { LogsOfRunsAreLogs }
{
    built_images_are_ready();
    valid_runs_have_lines();
    made_code_has_words();
    valid_runs_fit();
    names_of_texts_are_words();
}

/// Where the files hold the text of an accepted program, a script for it and the log of its run
/// over the script, which is not too long, what is due of `replay` is the number of its events.
pub fn logs_of_accepted_programs_are_runs()
    ensures { LogsOfAcceptedProgramsAreRuns }
{
    logs_of_runs_are_logs();
}

/// After a call of `go` that answers 0, so it is of the log that it put behind the report.
pub fn logs_of_go_are_runs()
    ensures { LogsOfGoAreRuns }
{
    logs_of_accepted_programs_are_runs();
}
