//! Start events that come.

ghost use Rattle.std.specs.Prelude.{IfOk, IsTrue, OnErr, nat_eq, slice_get, ◌&&◌, ◌↔◌, ◌≡◌};
ghost use Rattle.base.specs.declared.event.Act.TheVariants as act_is;
ghost use Rattle.source_semantics.specs.Config.{idle};
ghost use Rattle.source_semantics.specs.Source.{MayStart};
ghost use Rattle.replay_state.specs.View.{config_of, job_of, jobs_of};
ghost use Rattle.replay_due_events.specs.Timings.{event_of};
ghost use Rattle.replay_accept.specs.Judged.{Comes};
ghost use Rattle.replay_accept.specs.Running.{AreRules, program_of};

use crate::rules::Rules;
use base::{Act, Event};
use out_of_memory::OutOfMemory;
use replay_due_events::Start;
use replay_state::{Activity, Config, ProcessState, release, time_out};

/// Whether the act is a release.
pub fn is_release(act: Act) -> bool
    ensures { IsTrue result ↔ (act ≡ act_is.Release) }
{
    match act {
        Act::Release => true,
        _ => false,
    }
}

/// Whether the act is a time-out on the condition that raises this number.
fn is_time_out(act: Act, condition: usize, number: u32) -> bool
    ensures { IsTrue result ↔ (act ≡ act_is.TimeOut condition number) }
{
    match act {
        Act::TimeOut { cond, number: told } => {
            usize::from(cond) == condition && u32::from(told) == number
        }
        _ => false,
    }
}

/// Whether the event is one of the process, and its act is right.
fn is_by(event: &Event, process: usize, is_right: bool) -> bool
    ensures { result ≡ (is_right && nat_eq event.now.proc process) }
{
    is_right && usize::from(event.proc) == process
}

/// Whether the event is this start event.
pub fn is_start(event: &Event, start: Start) -> bool
    ensures { IsTrue result ↔ (event.now ≡ event_of event.now.tick start) }
{
    match start {
        Start::Release { process } => is_by(event, process, is_release(event.act)),
        Start::TimeOut {
            process,
            condition,
            number,
        } => is_by(event, process, is_time_out(event.act, condition, number)),
    }
}

/// Whether the process is idle.
fn is_idle(job: &ProcessState<'_>) -> bool
    ensures { IsTrue result ↔ ((job_of job.now).doing ≡ idle) }
{
    match job.doing {
        Activity::Idle => true,
        Activity::Active { .. } | Activity::Waiting(_) => false,
    }
}

/// Whether there is such a process, and it is idle.
fn may_release(jobs: &[ProcessState<'_>], process: usize) -> bool
    ensures { IsTrue result ↔ MayStart act_is.Release (slice_get (jobs_of jobs.now) process) }
{
    match jobs.get(process) {
        None => false,
        Some(job) => is_idle(job),
    }
}

/// Lets a start event come, if its process may start. Want of memory leaves the configuration as it
/// was.
pub fn come<'a>(
    rules: &Rules<'a>,
    config: &mut Config<'a>,
    tick: u64,
    start: Start,
) -> Result<bool, OutOfMemory>
    requires { AreRules rules.now }
    ensures comes { IfOk result (λ comes. Comes (program_of rules.now) (config_of config.old)
        (event_of tick start) comes (config_of config.new)) }
    ensures err { OnErr result (config_of config.new ≡ config_of config.old) }
{
    match start {
        Start::Release { process } => {
            if may_release(config.jobs.as_slice(), process) {
                release(config, &rules.text, tick, process)?;
                Ok(true)
            } else {
                Ok(false)
            }
        }
        Start::TimeOut {
            process,
            condition,
            number,
        } => {
            time_out(config, &rules.text, tick, process, condition, number)?;
            Ok(true)
        }
    }
}
