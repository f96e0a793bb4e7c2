//! Acts that are known without a run, done where the calls stand.

ghost use Rattle.std.specs.Prelude.{IsTrue, ℕ, ◌↔◌, ◌≡◌};
ghost use Rattle.source_semantics.specs.Config.{Config as SourceConfig, Job};
ghost use Rattle.source_semantics.specs.Source.{acts};
ghost use Rattle.source_semantics.specs.Starts.{Script};
ghost use Rattle.source_semantics.specs.Store.{Vars};
ghost use Rattle.syntax_tree.specs.Plain.{Program};
ghost use Rattle.replay_direct.specs.Direct.{direct_next};
ghost use Rattle.replay_due_events.specs.Accepts.{Accepts};
ghost use Rattle.replay_state.specs.View.{config_of};
ghost use Rattle.replay_accept.specs.Directly.{IsDirect, config_after};
ghost use Rattle.replay_accept.specs.Judged.{IsOpen, IsToAct};

use crate::as_defined::{is_end, is_put};
use base::{Act, Event};
use replay_direct::{DirectAction, end_calls, pass_put};
use replay_state::Config;

/// Whether the act is what the action tells.
fn is_told_directly(action: DirectAction<'_>, act: Act) -> bool
    ensures { (g : Program) (s : Script) (c : SourceConfig) (t k : ℕ) (j : Job) (monitor : Vars) →
        IsTrue result ↔
        (act ≡ (acts g s c t k (direct_next action.entry j.calls j.vars monitor)).act) }
{
    match action {
        DirectAction::Puts { dev, value, .. } => is_put(act, dev, value),
        DirectAction::Ends => is_end(act),
    }
}

/// The process acts at the tick.
fn do_directly<'a>(config: &mut Config<'a>, tick: u64, process: usize, action: DirectAction<'a>)
    ensures { config_of config.new ≡ config_after tick process action.entry (config_of config.old) }
{
    config.tick = tick;
    config.acted = true;
    match action {
        DirectAction::Puts { others, .. } => pass_put(&mut config.jobs, process, others),
        DirectAction::Ends => end_calls(&mut config.jobs, process),
    }
}

/// Whether the event is what the next action of its process tells, where no start event is due up
/// to its tick and this is the action; then the process acts.
pub fn act_directly<'a>(config: &mut Config<'a>, event: &Event, action: DirectAction<'a>) -> bool
    ensures { (g : Program) (s : Script) → IsOpen g s (config_of config.old) event.now →
        IsToAct g (config_of config.old) event.now →
        IsDirect g (config_of config.old) event.now.proc action.entry →
        Accepts g s (config_of config.old) event.now result (config_of config.new) }
{
    if is_told_directly(action, event.act) {
        do_directly(config, event.tick, usize::from(event.proc), action);
        true
    } else {
        false
    }
}
