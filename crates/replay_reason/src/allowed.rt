//! The event that is allowed at a tick.

ghost use Rattle.std.specs.Prelude.{IfOk, ℕ, ◌≡◌, ◌≤◌};
ghost use Rattle.syntax_tree.specs.Plain.{Program};
ghost use Rattle.source_semantics.specs.Source.{effect};
ghost use Rattle.replay_state.specs.View.{action_of, config_of};
ghost use Rattle.replay_accept.specs.Running.{program_of};
ghost use Rattle.replay_script.specs.Cursors.{IsWithin, script_in};
ghost use Rattle.replay_reason_spec.specs.Events.{act_of};
ghost use Rattle.replay_reason_spec.specs.Reasons.{ActsNext, IsAllowed};
ghost use Rattle.replay_reason.specs.Following.{Follows};

use crate::acting::first_ready;
use out_of_memory::OutOfMemory;
use replay_accept::queue::{first, is_nobody_in, queue};
use replay_accept::{Rules, next_of_process};
use replay_reason_spec::{SourceAct, SourceEvent};
use replay_script::{ScriptCursor, device_value};
use replay_state::{Action, Config};

/// What the action tells at the tick, from this configuration.
fn told_act(config: &Config<'_>, script: &ScriptCursor<'_>, tick: u64, action: Action) -> SourceAct
    requires { IsWithin tick script.now }
    ensures { (g : Program) (k : ℕ) → act_of result ≡ (effect g (script_in script.now) tick k
        (action_of action) (config_of config.now)).act }
{
    match action {
        Action::Gets { dev } => SourceAct::Get {
            dev,
            value: i64::from(device_value(script, tick, dev)),
        },
        Action::Puts { dev, value } => SourceAct::Put { dev, value },
        Action::Enters { mon } => SourceAct::Enter { mon },
        Action::Leaves { mon } => SourceAct::Leave { mon },
        Action::Waits { condition, .. } => SourceAct::Wait { cond: condition },
        Action::Signals { condition } => SourceAct::Signal {
            cond: condition,
            woken: first(queue(config, condition)),
        },
        Action::Broadcasts { condition } => SourceAct::Broadcast {
            cond: condition,
            count: queue(config, condition).len(),
        },
        Action::AsksEmpty { condition } => SourceAct::Empty {
            cond: condition,
            answer: is_nobody_in(queue(config, condition)),
        },
        Action::Raises { number } => SourceAct::Raise { number },
        Action::Ends => SourceAct::End,
    }
}

/// The next action, at the tick, of the process that is to act.
fn next_act(
    rules: &Rules<'_>,
    config: &Config<'_>,
    script: &ScriptCursor<'_>,
    tick: u64,
    process: usize,
) -> Result<Option<SourceEvent>, OutOfMemory>
    requires follows { Follows rules.now config.now script.now }
    requires reached { config.now.tick ≤ tick }
    requires next { ActsNext (program_of rules.now) (config_of config.now) process }
    ensures { IfOk result (IsAllowed (program_of rules.now) (script_in script.now)
        (config_of config.now) tick) }
{
    match next_of_process(rules, config, process)? {
        None => Ok(None),
        Some(next) => {
            let act = told_act(config, script, tick, next.action);
            Ok(Some(SourceEvent { tick, process, act }))
        }
    }
}

/// What is allowed at the tick, if a process is ready.
pub fn allowed(
    rules: &Rules<'_>,
    config: &Config<'_>,
    script: &ScriptCursor<'_>,
    tick: u64,
) -> Result<Option<SourceEvent>, OutOfMemory>
    requires follows { Follows rules.now config.now script.now }
    requires reached { config.now.tick ≤ tick }
    ensures { IfOk result (IsAllowed (program_of rules.now) (script_in script.now)
        (config_of config.now) tick) }
{
    match first_ready(rules, config) {
        None => Ok(None),
        Some(process) => next_act(rules, config, script, tick, process),
    }
}
