//! Actions of processes, one by one.
//!
//! Each leaves behind what the next action of its process says, and then has its effect.

ghost use Rattle.std.specs.Prelude.{OnErr, OnOk, true, ◌≡◌};
ghost use Rattle.syntax_tree.specs.Placed.{placed, plain};
ghost use Rattle.syntax_tree.specs.Plain.{Program};
ghost use Rattle.source_semantics.specs.Config.{at_tick, enter as entered, leave as left};
ghost use Rattle.source_semantics.specs.Run.{asks_empty, broadcasts, ends, signals, waits};
ghost use Rattle.source_semantics.specs.Source.{after_raise, effect, give_to, saved};
ghost use Rattle.source_semantics.specs.Starts.{Script, device_value as value_at};
ghost use Rattle.replay_state.specs.View.{config_of, next_of};
ghost use Rattle.replay_script.specs.Cursors.{IsWithin, script_in};
ghost use Rattle.replay_state.specs.Texts.{IsText};

use crate::effects::{Wanted, begin_wait, broadcast, signal};
use crate::giving::{give, word_of};
use crate::queue::{is_nobody_in, queue};
use crate::saving::save;
use out_of_memory::OutOfMemory;
use replay_script::{ScriptCursor, device_value};
use replay_state::{Activity, Config, NextAction, ProgramContext, join, prepare, raise, set_doing};

/// The process reads from the device.
pub fn get<'a>(
    config: &mut Config<'a>,
    script: &ScriptCursor<'_>,
    tick: u64,
    process: usize,
    next: NextAction<'a>,
    device: usize,
)
    requires { IsWithin tick script.now }
    ensures { config_of config.new ≡ give_to process
        (value_at (script_in script.now) tick device)
        (saved (at_tick (config_of config.old) tick true) process
        (next_of next.entry)) }
{
    let value = i64::from(device_value(script, tick, device));
    save(config, tick, process, next);
    give(&mut config.jobs, process, value);
}

/// The process enters the monitor.
pub fn enter<'a>(
    config: &mut Config<'a>,
    tick: u64,
    process: usize,
    next: NextAction<'a>,
    mon: usize,
)
    ensures { config_of config.new ≡ entered
        (saved (at_tick (config_of config.old) tick true) process
        (next_of next.entry)) process mon }
{
    save(config, tick, process, next);
    config.enter(process, mon);
}

/// The process leaves the monitor that it is inside.
pub fn leave<'a>(config: &mut Config<'a>, tick: u64, process: usize, next: NextAction<'a>)
    ensures { config_of config.new ≡ left
        (saved (at_tick (config_of config.old) tick true) process
        (next_of next.entry)) process }
{
    save(config, tick, process, next);
    config.leave(process);
}

/// The process waits on the condition. Want of memory leaves the configuration as it was.
pub fn wait<'a>(
    config: &mut Config<'a>,
    tick: u64,
    process: usize,
    next: NextAction<'a>,
    on: Wanted,
) -> Result<(), OutOfMemory>
    ensures ok { OnOk result ((g : Program) (s : Script) → config_of config.new ≡
        (effect g s tick process (waits on.condition on.limit on.number)
        (saved (at_tick (config_of config.old) tick true) process
        (next_of next.entry))).config) }
    ensures err { OnErr result (config_of config.new ≡ config_of config.old) }
{
    join(&mut config.queues, on.condition, process)?;
    save(config, tick, process, next);
    config.leave(process);
    begin_wait(&mut config.jobs, process, tick, on);
    Ok(())
}

/// The process signals the condition.
pub fn signal_on<'a>(
    config: &mut Config<'a>,
    tick: u64,
    process: usize,
    next: NextAction<'a>,
    condition: usize,
)
    ensures { (g : Program) (s : Script) → config_of config.new ≡
        (effect g s tick process (signals condition)
        (saved (at_tick (config_of config.old) tick true) process
        (next_of next.entry))).config }
{
    save(config, tick, process, next);
    signal(config, condition);
}

/// The process broadcasts to the condition.
pub fn broadcast_on<'a>(
    config: &mut Config<'a>,
    tick: u64,
    process: usize,
    next: NextAction<'a>,
    condition: usize,
)
    ensures { (g : Program) (s : Script) → config_of config.new ≡
        (effect g s tick process (broadcasts condition)
        (saved (at_tick (config_of config.old) tick true) process
        (next_of next.entry))).config }
{
    save(config, tick, process, next);
    broadcast(config, condition);
}

/// The process asks whether the condition's queue is empty.
pub fn ask_empty<'a>(
    config: &mut Config<'a>,
    tick: u64,
    process: usize,
    next: NextAction<'a>,
    condition: usize,
)
    ensures { (g : Program) (s : Script) → config_of config.new ≡
        (effect g s tick process (asks_empty condition)
        (saved (at_tick (config_of config.old) tick true) process
        (next_of next.entry))).config }
{
    save(config, tick, process, next);
    let answer = word_of(is_nobody_in(queue(config, condition)));
    give(&mut config.jobs, process, answer);
}

/// The process raises the exception. Want of memory leaves the configuration as it was.
pub fn raise_in<'a>(
    config: &mut Config<'a>,
    text: &ProgramContext<'a>,
    tick: u64,
    process: usize,
    next: NextAction<'a>,
    number: u32,
) -> Result<(), OutOfMemory>
    requires { IsText text.now }
    ensures ok { OnOk result (config_of config.new ≡ after_raise
        (plain (placed text.now.declarations.now)) process number
        (saved (at_tick (config_of config.old) tick true) process
        (next_of next.entry))) }
    ensures err { OnErr result (config_of config.new ≡ config_of config.old) }
{
    let after = prepare(config, text, process, number)?;
    save(config, tick, process, next);
    raise(config, process, after);
    Ok(())
}

/// The activation of the process ends.
pub fn end<'a>(config: &mut Config<'a>, tick: u64, process: usize, next: NextAction<'a>)
    ensures { (g : Program) (s : Script) → config_of config.new ≡
        (effect g s tick process ends
        (saved (at_tick (config_of config.old) tick true) process
        (next_of next.entry))).config }
{
    save(config, tick, process, next);
    set_doing(&mut config.jobs, process, Activity::Idle);
}
