//! Laws: what is due of a call on the image that an earlier call has stored.
//!
//! The clauses of the earlier call say that the bytes which it stored hold its image, and what is
//! due of the later call is one. Nothing here can run.
//!
//! The laws.

ghost use Rattle.calls_law.specs.Calls.{MigrateAfterGo, RunAfterCompile, RunAfterGo};

use command_due_law::one_answer::{migrate_is_one, run_is_one};

/// `run` of the image that `go` stored, over the same script, is to answer 0 and to put the log
/// that `go` has put behind its report.
pub fn run_after_go()
    ensures { RunAfterGo }
{
    run_is_one();
}

/// `run` of the image that `compile` stored, over a script for its names, is to answer 0 and to put
/// its log.
pub fn run_after_compile()
    ensures { RunAfterCompile }
{
    run_is_one();
}

/// `migrate` of the image that `go` stored is to answer 0 and to store the same bytes.
pub fn migrate_after_go()
    ensures { MigrateAfterGo }
{
    migrate_is_one();
}
