//! Processes before their first release.

ghost use Rattle.std.specs.Prelude.{◌≡◌, IfOk, map};
ghost use Rattle.syntax_tree.specs.Placed.{placed, placed_process, plain, plain_process};
ghost use Rattle.source_semantics.specs.Config.{idle_job as job_at_start};
ghost use Rattle.replay_state.specs.View.{job_of, jobs_of};
ghost use Rattle.replay.specs.Parts.{seen_processes};

use out_of_memory::OutOfMemory;
use replay_calls::add_fresh;
use replay_state::{Activity, ProcessState};
use static_declarations::Declarations;
use std::alloc::Global;
use syntax_tree::Process;

/// An idle process, its variables being 0 or false.
fn idle_job<'a>(
    alloc: Global,
    declarations: &Declarations<'_>,
    process: &'a Process,
) -> Result<ProcessState<'a>, OutOfMemory>
    ensures { IfOk result (λ job. job_of job ≡ job_at_start (plain (placed declarations.now))
        (plain_process (placed_process process.now))) }
{
    let mut vars = Vec::new(alloc);
    add_fresh(alloc, declarations, &mut vars, process.vars.as_slice())?;
    Ok(ProcessState {
        vars,
        doing: Activity::Idle,
        calls: Vec::new(alloc),
        handling: false,
    })
}

/// The processes in their order, all of them idle.
pub fn idle_jobs<'a>(
    alloc: Global,
    declarations: &Declarations<'_>,
    processes: &[&'a Process],
) -> Result<Vec<ProcessState<'a>>, OutOfMemory>
    ensures { IfOk result (λ jobs. jobs_of jobs.items ≡
        map (job_at_start (plain (placed declarations.now))) (seen_processes processes.now)) }
{
    let mut jobs = Vec::new(alloc);
    for process in processes {
        let job = idle_job(alloc, declarations, process)?;
        jobs.push(job)?;
    }
    Ok(jobs)
}
