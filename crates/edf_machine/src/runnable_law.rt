//! Laws: the machine under earliest deadline first takes the runs of images without waits.
//!
//! `specs/EdfRunnable.antt` has them: a run of an image that fits its trees and waits nowhere, in which no
//! release finds its process unfinished, is one that the machine takes by `Deadlines`; and each
//! event of such a run has a line in the log. Nothing here can run.
//!
//! The laws, for every image and every script.

ghost use Rattle.edf_machine.specs.EdfRunnable.{WaitlessRunsAreRunnable, WaitlessRunsHaveLines};

use edf_semantics::runs_refine::waitless_runs_are_awake;
use edf_semantics::safety_law::every_run_is_safe;

/// A run without overrun of an image that waits nowhere, under a script in order, is one that the
/// machine takes.
pub fn waitless_runs_are_runnable()
    ensures { WaitlessRunsAreRunnable }
{
    every_run_is_safe();
    waitless_runs_are_awake();
}

/// Each event of a run of an image that waits nowhere, under names that are those of its parts, has
/// a line.
pub fn waitless_runs_have_lines()
    ensures { WaitlessRunsHaveLines }
{
    waitless_runs_are_awake();
}
