//! Acts of processes.

ghost use Rattle.std.specs.Prelude.{OnErr, OnOk, ◌≡◌};
ghost use Rattle.syntax_tree.specs.Placed.{placed, plain};
ghost use Rattle.source_semantics.specs.Source.{acts, may_act as is_free_for};
ghost use Rattle.replay_state.specs.View.{action_of, config_of, next_of};
ghost use Rattle.replay_script.specs.Cursors.{IsWithin, script_in};
ghost use Rattle.replay_state.specs.Texts.{IsText};

use crate::effects::Wanted;
use crate::saving::save;
use crate::source_actions::{
    ask_empty, broadcast_on, end, enter, get, leave, raise_in, signal_on, wait,
};
use out_of_memory::OutOfMemory;
use replay_script::ScriptCursor;
use replay_state::{Action, Config, NextAction, ProgramContext};

/// Whether a monitor that the action enters is free.
pub fn may_act(config: &Config<'_>, action: Action) -> bool
    ensures { result ≡ is_free_for (config_of config.now) (action_of action) }
{
    match action {
        Action::Enters { mon } => match config.holds.get(mon) {
            None => false,
            Some(hold) => hold.occupant.is_none(),
        },
        _ => true,
    }
}

/// The process acts at the tick: the configuration is the one after its next action. Want of memory
/// leaves the configuration as it was.
pub fn act<'a>(
    config: &mut Config<'a>,
    text: &ProgramContext<'a>,
    script: &ScriptCursor<'_>,
    tick: u64,
    process: usize,
    next: NextAction<'a>,
) -> Result<(), OutOfMemory>
    requires text { IsText text.now }
    requires script { IsWithin tick script.now }
    ensures ok { OnOk result (config_of config.new ≡
        (acts (plain (placed text.now.declarations.now)) (script_in script.now)
        (config_of config.old) tick process (next_of next.entry)).config) }
    ensures err { OnErr result (config_of config.new ≡ config_of config.old) }
{
    match next.action {
        Action::Gets { dev } => get(config, script, tick, process, next, dev),
        Action::Puts { .. } => save(config, tick, process, next),
        Action::Enters { mon } => enter(config, tick, process, next, mon),
        Action::Leaves { .. } => leave(config, tick, process, next),
        Action::Waits {
            condition,
            limit,
            number,
        } => {
            let on = Wanted {
                condition,
                limit,
                number,
            };
            wait(config, tick, process, next, on)?
        }
        Action::Signals { condition } => signal_on(config, tick, process, next, condition),
        Action::Broadcasts { condition } => broadcast_on(config, tick, process, next, condition),
        Action::AsksEmpty { condition } => ask_empty(config, tick, process, next, condition),
        Action::Raises { number } => raise_in(config, text, tick, process, next, number)?,
        Action::Ends => end(config, tick, process, next),
    }
    Ok(())
}
