//! The ticks at which the clock releases processes, and at which waits are over.

ghost use Rattle.std.specs.Prelude.{◌≡◌, ◌≤◌, ◌<◌, ◌+◌, ◌^◌, ◌∷◌, [], false, true, slice_get, Some, ℕ};
ghost use Rattle.source_semantics.specs.Config.{Job};
ghost use Rattle.replay_state.specs.View.{config_of, doing_of, jobs_of};
ghost use Rattle.replay_due_events.specs.NextDue.{doing_due, is_after};
ghost use Rattle.replay_due_events.specs.Next.{AreOthersAfter, AreWaitsAfter, IsQuiet};
ghost use Rattle.replay_due_events.specs.Timings.{FramesCount, IsClockFree, is_clocked};

use crate::Timing;
use crate::no_overdue_start::next_release;
use replay_state::{Activity, Config, ProcessState};

/// The first tick from a tick on at which the clock releases the process, the last of all where it
/// never does.
fn clock_tick(timing: Timing, from: u64) -> u64
    requires frame { FramesCount (timing ∷ []) }
    requires from { from < 2 ^ 62 }
    ensures { (u : ℕ) → from ≤ u → u < result → is_clocked u timing ≡ false }
{
    match timing {
        Timing::AtEvent { .. } => u64::MAX,
        Timing::Periodic { frame, first } => next_release(first, frame, from),
    }
}

/// The earlier of two ticks.
fn earlier(first: u64, second: u64) -> u64
    ensures first { result ≤ first }
    ensures second { result ≤ second }
{
    if first < second { first } else { second }
}

/// The first tick from a tick on at which the clock releases a process, the last of all where it
/// never does.
fn next_clock_tick(timings: &[Timing], from: u64) -> u64
    requires frames { FramesCount timings.now }
    requires from { from < 2 ^ 62 }
    ensures { IsClockFree timings.now from result }
{
    let mut least = u64::MAX;
    for timing in timings {
        let tick = clock_tick(*timing, from);
        least = earlier(least, tick);
    }
    least
}

/// The tick at which the wait is over, the last of all where it is none.
fn wait_tick(doing: Activity) -> u64
    ensures { (u : ℕ) → u ≤ result → is_after u (doing_due 0 (doing_of doing)) ≡ true }
{
    let Activity::Waiting(wait) = doing else {
        return u64::MAX;
    };
    match wait.since.checked_add(u64::from(wait.limit) + 1) {
        None => u64::MAX,
        Some(over) => over,
    }
}

/// The first tick at which a wait is over, the last of all where nobody waits.
fn next_time_out(jobs: &[ProcessState<'_>]) -> u64
    ensures { AreWaitsAfter result (jobs_of jobs.now) }
{
    let mut least = u64::MAX;
    for job in jobs {
        let tick = wait_tick(job.doing);
        least = earlier(least, tick);
    }
    least
}

/// The tick at which the wait of the process is over, the last of all where it does not wait.
fn time_out_of(jobs: &[ProcessState<'_>], process: usize) -> u64
    ensures { (j : Job) → slice_get (jobs_of jobs.now) process ≡ Some j →
        is_after result (doing_due 0 j.doing) ≡ true }
{
    match jobs.get(process) {
        None => u64::MAX,
        Some(job) => wait_tick(job.doing),
    }
}

/// The first tick after the one reached at which the clock or a wait starts a process, the last of
/// all where neither does.
fn next_start(timings: &[Timing], config: &Config<'_>) -> u64
    requires frames { FramesCount timings.now }
    requires tick { config.now.tick < 2 ^ 61 }
    ensures { IsQuiet timings.now (config_of config.now) result }
{
    let by_clock = next_clock_tick(timings, config.tick + 1);
    let by_wait = next_time_out(config.jobs.as_slice());
    earlier(by_clock, by_wait)
}

/// A tick before which neither the clock nor a wait starts a process after the tick reached, where
/// it is known that none but a wait of this process does before another tick.
pub fn quiet_until(timings: &[Timing], config: &Config<'_>, process: usize, known: u64) -> u64
    requires frames { FramesCount timings.now }
    requires tick { config.now.tick < 2 ^ 61 }
    requires clock { IsClockFree timings.now (config.now.tick + 1) known }
    requires others { AreOthersAfter process known (config_of config.now).jobs }
    ensures { IsQuiet timings.now (config_of config.now) result }
{
    if config.tick < known {
        earlier(known, time_out_of(config.jobs.as_slice(), process))
    } else {
        next_start(timings, config)
    }
}
