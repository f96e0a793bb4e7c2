//! Changes of one process or one monitor.

ghost use Rattle.std.specs.Prelude.{◌≡◌, ◌∷◌, [], IfOk};
ghost use Rattle.std.specs.List.{position_from};
ghost use Rattle.syntax_tree.specs.Placed.{placed_stmts, plain_stmts};
ghost use Rattle.source_semantics.specs.Source.{call_of as call_before};
ghost use Rattle.source_semantics.specs.Config.{changed, job_doing, occupied, is_process, inside as inside_of, enter as entered, leave as left};
ghost use Rattle.replay_state.specs.View.{calls_of, config_of, doing_of, hold_of, holds_of, jobs_of};

use crate::call::{Call, CallOwner, Item};
use crate::config::{Config, MonitorState, ProcessState};
use crate::doing::Activity;
use out_of_memory::OutOfMemory;
use std::alloc::Global;
use syntax_tree::Stmt;

/// The process does this now.
pub fn set_doing(jobs: &mut Vec<ProcessState<'_>>, process: usize, doing: Activity)
    ensures { jobs_of jobs.new.items ≡ changed (job_doing (doing_of doing)) process
        (jobs_of jobs.old.items) }
{
    if process < jobs.len() {
        jobs[process].doing = doing;
    }
}

/// The process is doing this, has these calls in progress, and its handler runs or not.
pub fn set_job<'a>(
    jobs: &mut Vec<ProcessState<'a>>,
    process: usize,
    doing: Activity,
    calls: Vec<Call<'a>>,
    handling: bool,
)
    ensures { jobs_of jobs.new.items ≡ changed
        (λ j. record {
          vars = j.vars;
          doing = doing_of doing;
          calls = calls_of calls.entry.items;
          handling = handling;
        }) process (jobs_of jobs.old.items) }
{
    if process < jobs.len() {
        let job = &mut jobs[process];
        job.doing = doing;
        job.calls = calls;
        job.handling = handling;
    }
}

/// The one call in progress before the first of these statements of a process.
pub fn beginning<'a>(alloc: Global, body: &'a [Stmt]) -> Result<Vec<Call<'a>>, OutOfMemory>
    ensures { IfOk result (λ calls. calls_of calls.items ≡
        call_before (plain_stmts (placed_stmts body.now)) ∷ []) }
{
    let mut rest = Vec::new(alloc);
    rest.push(Item::DoAll(body))?;
    let own = Vec::new(alloc);
    let mut calls = Vec::new(alloc);
    calls.push(Call {
        home: CallOwner::Process,
        own,
        rest,
    })?;
    Ok(calls)
}

/// This process is inside the monitor, or none.
pub fn set_occupant(holds: &mut Vec<MonitorState<'_>>, mon: usize, occupant: Option<usize>)
    ensures { holds_of holds.new.items ≡ changed (occupied occupant) mon
        (holds_of holds.old.items) }
{
    if mon < holds.len() {
        holds[mon].occupant = occupant;
    }
}

/// Whether the process is inside the monitor.
fn is_held_by(hold: &MonitorState<'_>, process: usize) -> bool
    ensures { result ≡ is_process process (hold_of hold.now).occupant }
{
    match hold.occupant {
        None => false,
        Some(occupant) => occupant == process,
    }
}

/// The first monitor that the process is inside.
fn first_held(holds: &[MonitorState<'_>], process: usize) -> Option<usize>
    ensures { result ≡ position_from (λ h. is_process process h.occupant) 0 (holds_of holds.now) }
{
    for (mon, hold) in holds.iter().enumerate() {
        if is_held_by(hold, process) {
            return Some(mon);
        }
    }
    None
}

impl<'a> Config<'a> {
    /// The monitor that the process is inside.
    pub fn inside(&self, process: usize) -> Option<usize>
        ensures { result ≡ inside_of (config_of self.now) process }
    {
        first_held(self.holds.as_slice(), process)
    }

    /// The process goes into the monitor.
    pub fn enter(&mut self, process: usize, mon: usize)
        ensures { config_of self.new ≡ entered (config_of self.old) process mon }
    {
        set_occupant(&mut self.holds, mon, Some(process));
    }

    /// The process leaves the monitor that it is inside, if any.
    pub fn leave(&mut self, process: usize)
        ensures { config_of self.new ≡ left (config_of self.old) process }
    {
        if let Some(mon) = self.inside(process) {
            set_occupant(&mut self.holds, mon, None);
        }
    }
}
