//! Effects of actions on processes and queues.

ghost use Rattle.std.specs.Prelude.{◌≡◌};
ghost use Rattle.source_semantics.specs.Config.{changed, job_doing, queue as queue_now, released_of, waiting};
ghost use Rattle.source_semantics.specs.Source.{signalled};
ghost use Rattle.replay_state.specs.View.{config_of, jobs_of};
ghost use Rattle.replay_accept.specs.Effects.{broadcast as broadcasted};

use crate::queue::{first, queue};
use replay_state::{
    Activity, Config, ProcessState, Wait, drop_all, drop_first, queue_at, released, wake, wake_all,
};

/// What a process waits for: on which condition, for how many ticks at most, and which exception a
/// time-out raises.
#[derive(Clone, Copy)]
pub struct Wanted {
    pub condition: usize,
    pub limit: u32,
    pub number: u32,
}

/// The process waits for this since the tick.
pub fn begin_wait(jobs: &mut Vec<ProcessState<'_>>, process: usize, since: u64, on: Wanted)
    ensures { jobs_of jobs.new.items ≡ changed
        (λ j. job_doing (waiting (released_of j.doing) on.condition since on.limit on.number) j)
        process (jobs_of jobs.old.items) }
{
    if process < jobs.len() {
        let job = &mut jobs[process];
        let began = released(job.doing);
        job.doing = Activity::Waiting(Wait {
            released: began,
            condition: on.condition,
            since,
            limit: on.limit,
            number: on.number,
        });
    }
}

/// The first of the condition's queue, if any, is taken out of it and is ready again.
pub fn signal(config: &mut Config<'_>, condition: usize)
    ensures { config_of config.new ≡ (signalled condition
        (queue_now (config_of config.old) condition) (config_of config.old)).config }
{
    match first(queue(config, condition)) {
        None => {}
        Some(process) => {
            wake(&mut config.jobs, process);
            drop_first(&mut config.queues, condition);
        }
    }
}

/// All in the condition's queue are taken out of it and are ready again.
pub fn broadcast(config: &mut Config<'_>, condition: usize)
    ensures { config_of config.new ≡ broadcasted condition (config_of config.old) }
{
    wake_all(
        &mut config.jobs,
        queue_at(config.queues.as_slice(), condition),
    );
    drop_all(&mut config.queues, condition);
}
