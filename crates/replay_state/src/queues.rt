//! Queues of conditions.

ghost use Rattle.std.specs.Prelude.{◌≡◌, ◌++◌, ◌∷◌, [], cond, is_ok, nat_eq, slice_get, unwrap_or};
ghost use Rattle.std.specs.List.{position_from};
ghost use Rattle.source_semantics.specs.Config.{changed, released_of, wake_all as woken_all, woken};
ghost use Rattle.source_semantics.specs.Source.{without};
ghost use Rattle.replay_state.specs.View.{doing_of, jobs_of};
ghost use Rattle.replay_state.specs.Queues.{queues_of, tail_of};

use crate::{Activity, ProcessState};
use out_of_memory::OutOfMemory;

/// The first place of the process in the queue.
fn place_of(queue: &[usize], process: usize) -> Option<usize>
    ensures { result ≡ position_from (λ x. nat_eq x process) 0 queue.now }
{
    for (at, other) in queue.iter().enumerate() {
        if *other == process {
            return Some(at);
        }
    }
    None
}

/// Takes the process out of the queue, if it stands there.
fn leave_queue(queue: &mut Vec<usize>, process: usize)
    ensures { queue.new.items ≡ without process queue.old.items }
{
    match place_of(queue.as_slice(), process) {
        None => {}
        Some(at) => {
            queue.remove(at);
        }
    }
}

/// The process stands at the queue's end; an error leaves the queue as it was.
fn join_queue(queue: &mut Vec<usize>, process: usize) -> Result<(), OutOfMemory>
    ensures { queue.new.items ≡ cond (is_ok result)
        (queue.old.items ++ process ∷ []) queue.old.items }
{
    queue.push(process)?;
    Ok(())
}

/// Takes the first out of the queue.
fn drop_head(queue: &mut Vec<usize>)
    ensures { queue.new.items ≡ tail_of queue.old.items }
{
    if !queue.is_empty() {
        queue.remove(0);
    }
}

/// Takes the process out of the condition's queue, if it stands there.
pub fn take_out(queues: &mut Vec<Vec<usize>>, condition: usize, process: usize)
    ensures { queues_of queues.new.items ≡ changed (without process) condition
        (queues_of queues.old.items) }
{
    if condition < queues.len() {
        leave_queue(&mut queues[condition], process);
    }
}

/// The process joins the condition's queue at its end; an error leaves the queues as they were.
pub fn join(
    queues: &mut Vec<Vec<usize>>,
    condition: usize,
    process: usize,
) -> Result<(), OutOfMemory>
    ensures { queues_of queues.new.items ≡ changed
        (λ q. cond (is_ok result) (q ++ process ∷ []) q) condition (queues_of queues.old.items) }
{
    if condition < queues.len() {
        join_queue(&mut queues[condition], process)
    } else {
        Ok(())
    }
}

/// The queue of the condition, none where there is no such condition.
pub fn queue_at(queues: &[Vec<usize>], condition: usize) -> &[usize]
    ensures { result.now ≡ unwrap_or (slice_get (queues_of queues.now) condition) [] }
{
    match queues.get(condition) {
        None => &[],
        Some(queue) => queue.as_slice(),
    }
}

/// Since when a process is at work, 0 where it is not.
pub fn released(doing: Activity) -> u64
    ensures { result ≡ released_of (doing_of doing) }
{
    match doing {
        Activity::Idle => 0,
        Activity::Active { released } => released,
        Activity::Waiting(wait) => wait.released,
    }
}

/// The process is ready again.
pub fn wake(jobs: &mut Vec<ProcessState<'_>>, process: usize)
    ensures { jobs_of jobs.new.items ≡ changed woken process (jobs_of jobs.old.items) }
{
    if process < jobs.len() {
        let job = &mut jobs[process];
        let began = released(job.doing);
        job.doing = Activity::Active { released: began };
    }
}

/// The processes are ready again.
pub fn wake_all(jobs: &mut Vec<ProcessState<'_>>, processes: &[usize])
    ensures { jobs_of jobs.new.items ≡ woken_all processes.now (jobs_of jobs.old.items) }
{
    for process in processes {
        wake(jobs, *process);
    }
}

/// Takes the first out of the condition's queue.
pub fn drop_first(queues: &mut Vec<Vec<usize>>, condition: usize)
    ensures { queues_of queues.new.items ≡ changed tail_of condition (queues_of queues.old.items) }
{
    if condition < queues.len() {
        drop_head(&mut queues[condition]);
    }
}

/// Takes all out of the condition's queue.
pub fn drop_all(queues: &mut Vec<Vec<usize>>, condition: usize)
    ensures { queues_of queues.new.items ≡ changed (λ q. []) condition
        (queues_of queues.old.items) }
{
    if condition < queues.len() {
        queues[condition].clear();
    }
}
