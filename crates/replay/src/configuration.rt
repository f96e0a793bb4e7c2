//! The configuration before the first event.

ghost use Rattle.std.specs.Prelude.{◌≡◌, IfOk};
ghost use Rattle.syntax_tree.specs.Placed.{placed, plain};
ghost use Rattle.source_semantics.specs.Config.{start as at_start};
ghost use Rattle.replay_state.specs.View.{config_of};
ghost use Rattle.replay_state.specs.Texts.{IsText};

use crate::free_monitors::free_holds;
use crate::jobs::idle_jobs;
use crate::queues::empty_queues;
use out_of_memory::OutOfMemory;
use replay_state::{Config, ProgramContext};
use std::alloc::Global;

/// The configuration of a program before its first event.
pub fn first_config<'a>(alloc: Global, text: &ProgramContext<'a>) -> Result<Config<'a>, OutOfMemory>
    requires { IsText text.now }
    ensures { IfOk result (λ config. config_of config ≡
        at_start (plain (placed text.now.declarations.now))) }
{
    let decls = text.declarations.program().decls.as_slice();
    let jobs = idle_jobs(alloc, text.declarations, text.processes.as_slice())?;
    let holds = free_holds(alloc, text.declarations, decls)?;
    let queues = empty_queues(alloc, decls)?;
    Ok(Config {
        tick: 0,
        acted: false,
        jobs,
        holds,
        queues,
    })
}
