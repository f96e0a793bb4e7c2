//! The act that an action tells.

ghost use Rattle.std.specs.Prelude.{IsTrue, ℕ, ◌↔◌, ◌≡◌};
ghost use Rattle.syntax_tree.specs.Plain.{Program};
ghost use Rattle.source_semantics.specs.Source.{acts, effect};
ghost use Rattle.replay_state.specs.View.{action_of, config_of, next_of};
ghost use Rattle.replay_script.specs.Cursors.{IsWithin, script_in};

use crate::as_defined::{
    is_asked, is_broadcast, is_end, is_enter, is_get, is_leave, is_put, is_raise, is_signal,
    is_wait,
};
use crate::queue::{first, is_nobody_in, queue};
use base::Act;
use replay_script::{ScriptCursor, device_value};
use replay_state::{Action, Config, NextAction};

/// Whether the act is what the action tells at the tick, from this configuration.
fn is_told_by(
    config: &Config<'_>,
    script: &ScriptCursor<'_>,
    tick: u64,
    action: Action,
    act: Act,
) -> bool
    requires { IsWithin tick script.now }
    ensures { (g : Program) (k : ℕ) → IsTrue result ↔ (act ≡
        (effect g (script_in script.now) tick k (action_of action)
        (config_of config.now)).act) }
{
    match action {
        Action::Gets { dev } => is_get(act, dev, device_value(script, tick, dev)),
        Action::Puts { dev, value } => is_put(act, dev, value),
        Action::Enters { mon } => is_enter(act, mon),
        Action::Leaves { mon } => is_leave(act, mon),
        Action::Waits { condition, .. } => is_wait(act, condition),
        Action::Signals { condition } => is_signal(act, condition, first(queue(config, condition))),
        Action::Broadcasts { condition } => {
            is_broadcast(act, condition, queue(config, condition).len())
        }
        Action::AsksEmpty { condition } => {
            is_asked(act, condition, is_nobody_in(queue(config, condition)))
        }
        Action::Raises { number } => is_raise(act, number),
        Action::Ends => is_end(act),
    }
}

/// Whether the act is what the next action of a process tells at the tick.
pub fn is_told(
    config: &Config<'_>,
    script: &ScriptCursor<'_>,
    tick: u64,
    next: &NextAction<'_>,
    act: Act,
) -> bool
    requires { IsWithin tick script.now }
    ensures { (g : Program) (k : ℕ) → IsTrue result ↔ (act ≡
        (acts g (script_in script.now) (config_of config.now) tick k (next_of next.now)).act) }
{
    is_told_by(config, script, tick, next.action, act)
}
