//! What a start event makes of a configuration.
//!
//! A release puts its process before its body, with no call in progress but that one and no handler
//! running. A time-out takes its process out of the condition's queue and raises the wait's number.
//! Either leads to the tick of the event, in which nobody has acted. The configuration is then
//! exactly the one that the source meaning has after the start event (`after_start`); where memory
//! is wanting it is the one before.
//!
//! Start events.

ghost use Rattle.std.specs.Prelude.{OnErr, OnOk, false, ◌≡◌};
ghost use Rattle.base.specs.declared.event.Act.TheVariants as act;
ghost use Rattle.syntax_tree.specs.Placed.{placed, plain};
ghost use Rattle.source_semantics.specs.Config.{at_tick};
ghost use Rattle.source_semantics.specs.Source.{after_start};
ghost use Rattle.replay_state.specs.View.{config_of};
ghost use Rattle.replay_state.specs.Texts.{IsText};

use crate::{Activity, Config, ProgramContext, beginning, prepare, raise, set_job, take_out};
use out_of_memory::OutOfMemory;

/// The tick is reached, and nobody has acted in it.
fn reach(config: &mut Config<'_>, tick: u64)
    ensures { config_of config.new ≡ at_tick (config_of config.old) tick false }
{
    config.tick = tick;
    config.acted = false;
}

/// A new activation of the process begins at the tick. Want of memory leaves the configuration as
/// it was.
pub fn release<'a>(
    config: &mut Config<'a>,
    text: &ProgramContext<'a>,
    tick: u64,
    process: usize,
) -> Result<(), OutOfMemory>
    requires { IsText text.now }
    ensures ok { OnOk result (config_of config.new ≡ after_start
        (plain (placed text.now.declarations.now)) (config_of config.old)
        (record { tick = tick; proc = process; act = act.Release })) }
    ensures err { OnErr result (config_of config.new ≡ config_of config.old) }
{
    match text.processes.get(process) {
        None => {
            reach(config, tick);
            Ok(())
        }
        Some(its) => {
            let calls = beginning(text.alloc, its.body.as_slice())?;
            let doing = Activity::Active { released: tick };
            reach(config, tick);
            set_job(&mut config.jobs, process, doing, calls, false);
            Ok(())
        }
    }
}

/// The wait of the process on the condition is over at the tick, and the number is raised. Want of
/// memory leaves the configuration as it was.
pub fn time_out<'a>(
    config: &mut Config<'a>,
    text: &ProgramContext<'a>,
    tick: u64,
    process: usize,
    condition: usize,
    number: u32,
) -> Result<(), OutOfMemory>
    requires { IsText text.now }
    ensures ok { OnOk result (config_of config.new ≡ after_start
        (plain (placed text.now.declarations.now)) (config_of config.old)
        (record { tick = tick; proc = process; act = act.TimeOut condition number })) }
    ensures err { OnErr result (config_of config.new ≡ config_of config.old) }
{
    let after = prepare(config, text, process, number)?;
    reach(config, tick);
    take_out(&mut config.queues, condition, process);
    raise(config, process, after);
    Ok(())
}
