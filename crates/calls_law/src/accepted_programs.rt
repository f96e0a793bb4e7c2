//! Laws: what is due of calls on what `go` and `compile` have put and stored.
//!
//! `specs/Accepted.antt` says so of a program text and a script. The bytes that are stored hold the
//! image of the program, and what is due of a call is one. Nothing here can run.
//!
//! The laws.

ghost use Rattle.calls_law.specs.Accepted.{CompileIsGo, CompileThenMigrateKeeps, CompileThenRunPutsTheFault, CompileThenRunPutsTheLog, GoIsCheckAndLog, GoThenMigrateKeeps, GoThenReplayCounts, GoThenRunPutsTheLog};

use built_tasks_law::judged_by_text::{bounds_are_of_the_text, built_is_in_time};
use command_due_law::one_answer::{
    compile_is_one, migrate_is_one, run_is_one, timely_texts_have_one_image,
};
use compiler_correct::faithful_images::built_images_are_faithful;
use replay_law::accepted_logs::{logs_of_accepted_programs_are_runs, logs_of_runs_are_logs};
use replay_law::one_judgement::replay_is_one;
use replay_law::stored_programs::built_images_are_held;

/// Where what is due of `go` is status 0, it puts the report that `check` puts, and a log behind it.
pub fn go_is_check_and_log()
    ensures { GoIsCheckAndLog }
{}

/// `compile` puts the report that `go` puts, and stores the image that `go` stores.
pub fn compile_is_go()
    ensures { CompileIsGo }
{
    timely_texts_have_one_image();
    compile_is_one();
}

/// `run` of the image that `go` stored, over the same script, puts the log that `go` put behind its
/// report.
pub fn go_then_run_puts_the_log()
    ensures { GoThenRunPutsTheLog }
{
    timely_texts_have_one_image();
    built_images_are_held();
    run_is_one();
}

/// `run` of the image that `compile` stored puts what `go` puts behind its report.
pub fn compile_then_run_puts_the_log()
    ensures { CompileThenRunPutsTheLog }
{
    timely_texts_have_one_image();
    go_then_run_puts_the_log();
}

/// Over a text that is no script for it, `run` of that image puts the line of the fault that `go`
/// puts.
pub fn compile_then_run_puts_the_fault()
    ensures { CompileThenRunPutsTheFault }
{
    timely_texts_have_one_image();
    built_images_are_held();
    run_is_one();
}

/// `migrate` of the image that `go` stored stores the same bytes.
pub fn go_then_migrate_keeps()
    ensures { GoThenMigrateKeeps }
{
    timely_texts_have_one_image();
    built_images_are_held();
    migrate_is_one();
}

/// So it is of the image that `compile` stored.
pub fn compile_then_migrate_keeps()
    ensures { CompileThenMigrateKeeps }
{
    built_images_are_held();
    migrate_is_one();
}

/// `replay` of the log that `go` put behind its report, where this is no longer than a log may be,
/// puts `run` and the number of its lines, which is that of its events.
pub fn go_then_replay_counts()
    ensures { GoThenReplayCounts }
{
    timely_texts_have_one_image();
    built_images_are_faithful();
    built_is_in_time();
    bounds_are_of_the_text();
    logs_of_runs_are_logs();
    logs_of_accepted_programs_are_runs();
    replay_is_one();
}
