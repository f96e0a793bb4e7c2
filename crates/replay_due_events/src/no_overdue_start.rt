//! Whether a start event is missing before a tick.
//!
//! `is_none_missing_before` compares the tick with the next release by a line, the next periodic
//! release and the next time-out that have not come, so no tick is walked, however far off it is. A
//! run is complete exactly where none is missing before the script's end.
//!
//! Whether a start event is missing before a tick.

ghost use Rattle.std.specs.Prelude.{◌≡◌, ◌↔◌, ◌<◌, ◌^◌, ◌∷◌, ◌&&◌, [], cond, IsTrue, map, nat_le, slice_get, length, ℕ};
ghost use Rattle.syntax_tree.specs.Plain.{Program};
ghost use Rattle.source_semantics.specs.Names.{processes};
ghost use Rattle.source_semantics.specs.Starts.{NoneMissing};
ghost use Rattle.replay_due_events.specs.NextDue.{FramesPass, doing_due, due_from, is_after, line_due, lines_due, next_in_order, release_from};
ghost use Rattle.replay_state.specs.View.{config_of, doing_of, jobs_of};
ghost use Rattle.script.specs.Meaning.{line_said, said};
ghost use Rattle.replay_due_events.specs.Timings.{FramesCount, IsClockFree, IsTimetableOf, timings as timings_in};
ghost use Rattle.replay_due_events.specs.Next.{AreWaitsAfter, timing_due, timings_due, jobs_due};

use crate::{Timetable, Timing, by_event, is_released_at};
use replay_state::{Activity, Config, ProcessState};
use script::ScriptLine;

/// Whether a tick is before `from`, or not before `until`.
fn is_outside(from: u64, until: u64, tick: u64) -> bool
    ensures { result ≡ is_after until (cond (nat_le from tick) (Some tick) None) }
{
    tick < from || until <= tick
}

/// Whether the line releases nobody from tick `from` on and before tick `until` whose release has
/// not come.
fn line_is_after(
    timings: &[Timing],
    config: &Config<'_>,
    from: u64,
    until: u64,
    line: ScriptLine,
) -> bool
    ghost program: { Program }
    requires { timings.now ≡ timings_in program }
    ensures { result ≡ is_after until (line_due program (config_of config.now) from
        (line_said line)) }
{
    match line {
        ScriptLine::Set { .. } => true,
        ScriptLine::Occur { tick, event } => {
            match by_event(timings, config.jobs.as_slice(), tick, usize::from(event)) {
                None => true,
                Some(_) => is_outside(from, until, tick),
            }
        }
    }
}

/// Whether none of the lines does.
fn lines_are_after(
    timings: &[Timing],
    config: &Config<'_>,
    from: u64,
    until: u64,
    lines: &[ScriptLine],
) -> bool
    ghost program: { Program }
    requires { timings.now ≡ timings_in program }
    ensures { result ≡ is_after until (lines_due program (config_of config.now) from
        (map line_said lines.now)) }
{
    for line in lines {
        if !line_is_after(timings, config, from, until, *line) {
            return false;
        }
    }
    true
}

/// The first periodic release from a tick on.
pub(crate) fn next_release(first: u32, frame: u32, from: u64) -> u64
    requires frame { 0 < frame }
    requires from { from < 2 ^ 62 }
    ensures next { result ≡ release_from first frame from }
    ensures fits { result < 2 ^ 63 }
{
    let first = u64::from(first);
    let frame = u64::from(frame);
    first + from.saturating_sub(first).div_ceil(frame) * frame
}

/// Whether the next periodic release of the process from a tick on, that has not come, is not
/// before tick `until`.
fn release_is_after(
    timing: Timing,
    jobs: &[ProcessState<'_>],
    process: usize,
    from: u64,
    until: u64,
) -> bool
    requires frame { FramesCount (timing ∷ []) }
    requires from { from < 2 ^ 62 }
    ensures { result ≡ is_after until (timing_due from timing
        (slice_get (jobs_of jobs.now) process)) }
{
    let Timing::Periodic { frame, first } = timing else {
        return true;
    };
    match jobs.get(process) {
        None => true,
        Some(job) => {
            let next = next_release(first, frame, from);
            if is_released_at(next, job.doing) {
                until <= next + u64::from(frame)
            } else {
                until <= next
            }
        }
    }
}

/// Whether none of the periodic releases that have not come is before tick `until`.
fn releases_are_after(timings: &[Timing], jobs: &[ProcessState<'_>], from: u64, until: u64) -> bool
    requires frames { FramesCount timings.now }
    requires from { from < 2 ^ 62 }
    ensures { result ≡ is_after until (timings_due (jobs_of jobs.now) from 0 timings.now) }
{
    for (process, timing) in timings.iter().enumerate() {
        if !release_is_after(*timing, jobs, process, from, until) {
            return false;
        }
    }
    true
}

/// The same, where the clock is known to release nobody before a tick.
fn clock_is_after(
    timings: &[Timing],
    jobs: &[ProcessState<'_>],
    from: u64,
    until: u64,
    free_until: u64,
) -> bool
    requires frames { FramesCount timings.now }
    requires from { from < 2 ^ 62 }
    requires free { IsClockFree timings.now from free_until }
    ensures { result ≡ is_after until (timings_due (jobs_of jobs.now) from 0 timings.now) }
{
    if until <= free_until {
        return true;
    }
    releases_are_after(timings, jobs, from, until)
}

/// Whether the process's wait does not time out from tick `from` on and before tick `until`.
fn wait_is_after(doing: Activity, from: u64, until: u64) -> bool
    ensures { result ≡ is_after until (doing_due from (doing_of doing)) }
{
    let Activity::Waiting(wait) = doing else {
        return true;
    };
    match wait.since.checked_add(u64::from(wait.limit) + 1) {
        None => true,
        Some(due) => due < from || until <= due,
    }
}

/// Whether no wait does.
fn waits_are_after(jobs: &[ProcessState<'_>], from: u64, until: u64) -> bool
    ensures { result ≡ is_after until (jobs_due from (jobs_of jobs.now)) }
{
    for job in jobs {
        if !wait_is_after(job.doing, from, until) {
            return false;
        }
    }
    true
}

/// The same, where it is known that no wait is over before a tick.
fn time_outs_are_after(jobs: &[ProcessState<'_>], from: u64, until: u64, free_until: u64) -> bool
    requires { AreWaitsAfter free_until (jobs_of jobs.now) }
    ensures { result ≡ is_after until (jobs_due from (jobs_of jobs.now)) }
{
    if until <= free_until {
        return true;
    }
    waits_are_after(jobs, from, until)
}

/// The first tick at which a start event can be missing: the one reached, or the next where
/// somebody has acted in it.
fn first_open(config: &Config<'_>) -> u64
    requires { config.now.tick < 2 ^ 61 }
    ensures { result ≡ due_from (config_of config.now) }
{
    if config.acted {
        config.tick + 1
    } else {
        config.tick
    }
}

fn all_hold(first: bool, second: bool, third: bool) -> bool
    ensures { result ≡ (first && (second && third)) }
{
    first && second && third
}

/// Whether the next start event that is missing is not before the tick.
fn is_next_after(
    table: &Timetable,
    config: &Config<'_>,
    lines: &[ScriptLine],
    until: u64,
    free_until: u64,
) -> bool
    ghost program: { Program }
    requires table { IsTimetableOf program table.now }
    requires frames { FramesCount table.now.timings.items }
    requires jobs { length config.now.jobs.items ≡ length (processes program) }
    requires tick { config.now.tick < 2 ^ 61 }
    requires free { IsClockFree table.now.timings.items (due_from (config_of config.now))
        free_until }
    requires waits { AreWaitsAfter free_until (config_of config.now).jobs }
    ensures { (end : ℕ) → result ≡ is_after until
        (next_in_order program (said lines.now end) (config_of config.now)) }
{
    let from = first_open(config);
    let timings = table.timings.as_slice();
    let jobs = config.jobs.as_slice();
    let by_lines = lines_are_after(timings, config, from, until, lines);
    let by_clock = clock_is_after(timings, jobs, from, until, free_until);
    let by_waits = time_outs_are_after(jobs, from, until, free_until);
    all_hold(by_lines, by_clock, by_waits)
}

/// Whether no start event due before the tick is missing, where it is known that neither the clock
/// nor a wait starts a process before a tick.
pub fn is_none_missing_before(
    table: &Timetable,
    config: &Config<'_>,
    lines: &[ScriptLine],
    until: u64,
    free_until: u64,
) -> bool
    ghost program: { Program }
    requires table { IsTimetableOf program table.now }
    requires frames { FramesPass program }
    requires jobs { length config.now.jobs.items ≡ length (processes program) }
    requires tick { config.now.tick < 2 ^ 61 }
    requires free { IsClockFree table.now.timings.items (due_from (config_of config.now))
        free_until }
    requires waits { AreWaitsAfter free_until (config_of config.now).jobs }
    ensures { (end : ℕ) → NoneMissing program (said lines.now end)
        (config_of config.now) until ↔ IsTrue result }
{
    crate::next_due::none_missing_is_one_comparison();
    crate::next_due::waits_stand_in_any_order();
    is_next_after(table, config, lines, until, free_until)
}
