//! The next action of a process, with a run or without.

ghost use Rattle.std.specs.Prelude.{◌≡◌, IfOk};
ghost use Rattle.syntax_tree.specs.Placed.{placed, placed_process, plain, plain_process};
ghost use Rattle.source_semantics.specs.Config.{inside, vars_of as vars_inside};
ghost use Rattle.source_semantics.specs.Names.{routine_count};
ghost use Rattle.source_semantics.specs.Source.{job_next};
ghost use Rattle.replay_state.specs.View.{config_of, job_of};
ghost use Rattle.replay_direct.specs.Direct.{found_next};

use crate::direct::{DirectAction, direct_action};
use out_of_memory::OutOfMemory;
use replay_calls::EvalContext;
use replay_next::next_action;
use replay_state::{Config, NextAction, ProcessState};

/// The next action of a process.
#[derive(Drop)]
pub enum FoundAction<'a> {
    /// It is known without a run.
    Direct(DirectAction<'a>),
    /// It came of a run.
    Ran(NextAction<'a>),
}

/// The next action of a process, of which this is the number and the job. The configuration stays
/// as it is; the only error is want of memory.
pub fn found_action<'a>(
    scope: &EvalContext<'a>,
    depth: usize,
    config: &Config<'a>,
    process: usize,
    job: &ProcessState<'a>,
) -> Result<FoundAction<'a>, OutOfMemory>
    requires { depth ≡ routine_count (plain (placed scope.now.declarations.now)) }
    ensures { let c = config_of config.now in let j = job_of job.now in IfOk result (λ found.
        found_next found j.calls j.vars (vars_inside c (inside c process)) ≡
        job_next c process (plain_process (placed_process scope.now.process.now)) j
        (plain (placed scope.now.declarations.now))) }
{
    match direct_action(scope, depth, job) {
        Some(action) => Ok(FoundAction::Direct(action)),
        None => Ok(FoundAction::Ran(next_action(scope, depth, config, process, job)?)),
    }
}
