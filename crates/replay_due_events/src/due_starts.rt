//! The first start event that is due.

ghost use Rattle.std.specs.Prelude.{◌≡◌, ◌+◌, ◌&&◌, [], ◌∷◌, cond, nat_eq, option_map, slice_get, ℕ};
ghost use Rattle.syntax_tree.specs.Plain.{Program};
ghost use Rattle.source_semantics.specs.Starts.{due, release_missing, release_of, was_released_at, time_out};
ghost use Rattle.replay_state.specs.View.{config_of, doing_of, jobs_of};
ghost use Rattle.script.specs.Meaning.{said};
ghost use Rattle.replay_due_events.specs.Timings.{FramesCount, IsTimetableOf, clocked, event_of, expired, first_in, is_at, is_clocked, released_by, released_in};

use crate::timetable::{Timetable, Timing};
use replay_state::{Activity, Config, ProcessState};
use script::ScriptLine;

/// A start event.
#[derive(Clone, Copy)]
pub enum Start {
    Release {
        process: usize,
    },
    /// The wait of the process on the condition is over, and this number is raised.
    TimeOut {
        process: usize,
        condition: usize,
        number: u32,
    },
}

/// Whether the process has been released at the tick.
pub fn is_released_at(tick: u64, doing: Activity) -> bool
    ensures { result ≡ was_released_at tick (doing_of doing) }
{
    match doing {
        Activity::Idle => false,
        Activity::Active { released } => released == tick,
        Activity::Waiting(wait) => wait.released == tick,
    }
}

/// Whether the release of a process at the tick has not come.
fn is_missing(tick: u64, process: usize, jobs: &[ProcessState<'_>]) -> bool
    ensures { release_missing tick process (slice_get (jobs_of jobs.now) process) ≡
        cond result (release_of tick process ∷ []) [] }
{
    match jobs.get(process) {
        None => false,
        Some(job) => !is_released_at(tick, job.doing),
    }
}

/// Whether the event releases the process.
fn is_by(timing: Timing, event: usize) -> bool
    ensures { result ≡ is_at event timing }
{
    match timing {
        Timing::Periodic { .. } => false,
        Timing::AtEvent { event: own } => own == event,
    }
}

/// The first process whose release by the event at the tick has not come.
pub fn by_event(
    timings: &[Timing],
    jobs: &[ProcessState<'_>],
    tick: u64,
    event: usize,
) -> Option<usize>
    ensures { option_map (release_of tick) result ≡
        first_in (released_by (jobs_of jobs.now) tick event 0 timings.now) }
{
    for (process, timing) in timings.iter().enumerate() {
        if is_by(*timing, event) && is_missing(tick, process, jobs) {
            return Some(process);
        }
    }
    None
}

/// The first process whose release by a line at the tick has not come.
fn by_lines(
    timings: &[Timing],
    jobs: &[ProcessState<'_>],
    tick: u64,
    lines: &[ScriptLine],
) -> Option<usize>
    ensures { option_map (release_of tick) result ≡
        first_in (released_in (jobs_of jobs.now) timings.now tick lines.now) }
{
    for line in lines {
        if let ScriptLine::Occur { tick: at, event } = *line {
            if at == tick {
                if let Some(process) = by_event(timings, jobs, tick, usize::from(event)) {
                    return Some(process);
                }
            }
        }
    }
    None
}

/// Whether the clock releases the process at the tick.
fn is_clocked_at(tick: u64, timing: Timing) -> bool
    requires { FramesCount (timing ∷ []) }
    ensures { result ≡ is_clocked tick timing }
{
    match timing {
        Timing::AtEvent { .. } => false,
        Timing::Periodic { frame, first } => {
            let first = u64::from(first);
            first <= tick && (tick - first) % u64::from(frame) == 0
        }
    }
}

/// The first process whose periodic release at the tick has not come.
fn by_clock(timings: &[Timing], jobs: &[ProcessState<'_>], tick: u64) -> Option<usize>
    requires { FramesCount timings.now }
    ensures { option_map (release_of tick) result ≡
        first_in (clocked (jobs_of jobs.now) tick 0 timings.now) }
{
    for (process, timing) in timings.iter().enumerate() {
        if is_missing(tick, process, jobs) && is_clocked_at(tick, *timing) {
            return Some(process);
        }
    }
    None
}

/// Whether a wait since a tick, with this limit, times out at the tick.
fn is_over(since: u64, limit: u32, tick: u64) -> bool
    ensures { result ≡ nat_eq (since + limit + 1) tick }
{
    since < tick && tick - since == u64::from(limit) + 1
}

/// The time-out of the process, if it comes at the tick.
fn time_out_at(tick: u64, process: usize, jobs: &[ProcessState<'_>]) -> Option<Start>
    ensures { option_map (event_of tick) result ≡
        first_in (time_out tick process (slice_get (jobs_of jobs.now) process)) }
{
    let Activity::Waiting(wait) = jobs.get(process)?.doing else {
        return None;
    };
    if is_over(wait.since, wait.limit, tick) {
        Some(Start::TimeOut {
            process,
            condition: wait.condition,
            number: wait.number,
        })
    } else {
        None
    }
}

/// The first time-out at the tick, in the order of ranks.
fn by_waits(by_rank: &[usize], jobs: &[ProcessState<'_>], tick: u64) -> Option<Start>
    ensures { option_map (event_of tick) result ≡
        first_in (expired (jobs_of jobs.now) tick by_rank.now) }
{
    for process in by_rank {
        if let Some(start) = time_out_at(tick, *process, jobs) {
            return Some(start);
        }
    }
    None
}

/// Whether somebody has acted at the tick.
pub fn has_acted(config: &Config<'_>, tick: u64) -> bool
    ensures { result ≡ (config.now.acted && nat_eq config.now.tick tick) }
{
    config.acted && config.tick == tick
}

impl Timetable {
    /// The first start event that is due at the tick and has not come, if there is one.
    pub fn first_due(&self, config: &Config<'_>, lines: &[ScriptLine], tick: u64) -> Option<Start>
        ghost program: { Program }
        requires table { IsTimetableOf program self.now }
        requires frames { FramesCount self.now.timings.items }
        ensures { (end : ℕ) → option_map (event_of tick) result ≡
            first_in (due program (said lines.now end) (config_of config.now) tick) }
    {
        if has_acted(config, tick) {
            return None;
        }
        let timings = self.timings.as_slice();
        let jobs = config.jobs.as_slice();
        match by_lines(timings, jobs, tick, lines) {
            Some(process) => Some(Start::Release { process }),
            None => match by_clock(timings, jobs, tick) {
                Some(process) => Some(Start::Release { process }),
                None => by_waits(self.by_rank.as_slice(), jobs, tick),
            },
        }
    }
}
