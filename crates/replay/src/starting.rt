//! A program before its first event.

ghost use Rattle.std.specs.Prelude.{◌≡◌, ◌≤◌, IfOk};
ghost use Rattle.source_semantics.specs.Names.{routine_count};
ghost use Rattle.syntax_tree.specs.Placed.{placed, plain};
ghost use Rattle.source_semantics.specs.Config.{start as at_start};
ghost use Rattle.replay_due_events.specs.NextDue.{FramesPass};
ghost use Rattle.replay_state.specs.Tables.{AreRanksOf};
ghost use Rattle.replay_state.specs.View.{config_of};
ghost use Rattle.replay_accept.specs.Running.{Stands, program_of};

use crate::configuration::first_config;
use crate::tables::rules_of;
use out_of_memory::OutOfMemory;
use replay_accept::Running;
use replay_calls::NumberedConditions;
use replay_state::Ranks;
use std::alloc::Global;

/// A program before its first event: its tables, and the configuration in which all processes are
/// idle, all variables 0 or false, all monitors free and all queues empty. Fails only where memory
/// is wanting.
pub fn start<'a>(
    alloc: Global,
    conditions: &'a NumberedConditions<'a>,
    ranks: Ranks,
) -> Result<Running<'a>, OutOfMemory>
    requires ranks { AreRanksOf (plain (placed conditions.now)) ranks }
    requires frames { FramesPass (plain (placed conditions.now)) }
    requires few { routine_count (plain (placed conditions.now)) ≤ 512 }
    ensures stands { IfOk result Stands }
    ensures program { IfOk result (λ r. program_of r.rules ≡ plain (placed conditions.now)) }
    ensures start { IfOk result (λ r. config_of r.config ≡
        at_start (plain (placed conditions.now))) }
{
    let rules = rules_of(alloc, conditions, ranks)?;
    let config = first_config(alloc, &rules.text)?;
    Ok(Running {
        rules,
        config,
        next_start: 0,
        first: None,
    })
}
