//! Why events are no run.

ghost use Rattle.std.specs.Prelude.{IfOk, suc, ◌<◌, ◌≡◌, ◌≤◌, ◌^◌};
ghost use Rattle.source_semantics.specs.Config.{Config as SourceConfig};
ghost use Rattle.source_semantics.specs.Source.{Step};
ghost use Rattle.source_semantics.specs.Verdicts.{Stops};
ghost use Rattle.replay_state.specs.View.{config_of};
ghost use Rattle.replay_accept.specs.Running.{Stands, program_of};
ghost use Rattle.replay_script.specs.Cursors.{IsAt, script_in};
ghost use Rattle.replay_reason_spec.specs.Missing.{IsNextStart, is_start as starts};
ghost use Rattle.replay_reason_spec.specs.Reasons.{IsEndReason, IsEventReason, IsInReach, IsNext, IsReason, StartsHaveCome};
ghost use Rattle.replay_reason.specs.Following.{Follows};
ghost use Rattle.replay_reason.specs.Starting.{start_event};

use crate::allowed::allowed;
use crate::coming::is_same;
use crate::missing::missing;
use crate::next_start::{DueStart, next_start, source_event};
use base::{Act, Event};
use out_of_memory::OutOfMemory;
use replay_accept::{Rules, Running};
use replay_due_events::has_acted;
use replay_reason_spec::{Reason, SourceEvent};
use replay_script::ScriptCursor;
use replay_state::Config;

/// Whether the act is a release or a time-out.
fn is_start(act: Act) -> bool
    ensures { result ≡ starts act }
{
    matches!(act, Act::Release | Act::TimeOut { .. })
}

/// The start event that is due next below the script's end, if there is one.
fn next_below_end(
    rules: &Rules<'_>,
    config: &Config<'_>,
    script: &ScriptCursor<'_>,
) -> Option<SourceEvent>
    requires { Follows rules.now config.now script.now }
    ensures { IsNext (program_of rules.now) (script_in script.now) (config_of config.now) result }
{
    match next_start(rules, config, script, script.end()) {
        None => None,
        Some(due) => Some(source_event(due)),
    }
}

/// Why the event is not allowed where all start events that are due up to its tick have come.
fn reason_of_open(
    rules: &Rules<'_>,
    config: &Config<'_>,
    script: &ScriptCursor<'_>,
    event: &Event,
) -> Result<Reason, OutOfMemory>
    requires follows { Follows rules.now config.now script.now }
    requires come { StartsHaveCome (program_of rules.now) (script_in script.now)
        (config_of config.now) event.now }
    ensures { IfOk result (IsEventReason (program_of rules.now) (script_in script.now)
        (config_of config.now) event.now) }
{
    let tick = event.tick;
    if is_start(event.act) {
        let next = next_below_end(rules, config, script);
        Ok(Reason::NoneDue { tick, next })
    } else if has_acted(config, tick) {
        Ok(Reason::Acted { tick })
    } else {
        let allowed = allowed(rules, config, script, tick)?;
        Ok(Reason::Other { allowed })
    }
}

/// Why the event is not allowed where this start event is the first that is due up to its tick.
fn reason_of_due<'a>(
    rules: &Rules<'a>,
    config: &mut Config<'a>,
    script: &ScriptCursor<'_>,
    event: &Event,
    due: DueStart,
) -> Result<Reason, OutOfMemory>
    requires follows { Follows rules.now config.old script.now }
    requires reach { IsInReach (script_in script.now) (config_of config.old) event.now }
    requires next { IsNextStart (program_of rules.now) (script_in script.now)
        (config_of config.old) (suc event.now.tick) (start_event due) }
    requires stops { (new : SourceConfig) → Step (program_of rules.now) (script_in script.now)
        (config_of config.old) event.now new → ⊥ }
    ensures { IfOk result (IsEventReason (program_of rules.now) (script_in script.now)
        (config_of config.old) event.now) }
{
    if is_same(event, due) {
        Ok(Reason::Unfinished {
            process: usize::from(event.proc),
        })
    } else {
        let missing = missing(rules, config, script, event.tick + 1)?;
        Ok(Reason::Missing { missing })
    }
}

/// Why the event is not allowed.
fn reason_of<'a>(
    rules: &Rules<'a>,
    config: &mut Config<'a>,
    script: &ScriptCursor<'_>,
    event: &Event,
) -> Result<Reason, OutOfMemory>
    requires follows { Follows rules.now config.old script.now }
    requires stops { (new : SourceConfig) → Step (program_of rules.now) (script_in script.now)
        (config_of config.old) event.now new → ⊥ }
    ensures { IfOk result (IsEventReason (program_of rules.now) (script_in script.now)
        (config_of config.old) event.now) }
{
    let tick = event.tick;
    let end = script.end();
    if tick >= end {
        return Ok(Reason::BeyondEnd { tick, end });
    }
    if tick < config.tick {
        return Ok(Reason::Past {
            tick,
            reached: config.tick,
        });
    }
    match next_start(rules, config, script, tick + 1) {
        None => reason_of_open(rules, config, script, event),
        Some(due) => reason_of_due(rules, config, script, event, due),
    }
}

/// Why no run ends here.
fn reason_of_end<'a>(
    rules: &Rules<'a>,
    config: &mut Config<'a>,
    script: &ScriptCursor<'_>,
) -> Result<Reason, OutOfMemory>
    requires { Follows rules.now config.old script.now }
    ensures { IfOk result (IsEndReason (program_of rules.now) (script_in script.now)
        (config_of config.old)) }
{
    let missing = missing(rules, config, script, script.end())?;
    Ok(Reason::Ended { missing })
}

/// Why these events are no run from the configuration at hand on, where the first of them is not
/// allowed, or there is none and a start event below the script's end is missing. The configuration
/// may be another one afterwards. Want of memory is the only error.
pub fn find_reason(
    running: &mut Running<'_>,
    script: &ScriptCursor<'_>,
    events: &[Event],
) -> Result<Reason, OutOfMemory>
    requires stands { Stands running.old }
    requires script { IsAt running.old.config.tick script.now }
    requires end { script.now.script.now.end < 2 ^ 61 }
    requires stops { Stops (program_of running.old.rules) (script_in script.now)
        (config_of running.old.config) events.now }
    ensures { IfOk result (IsReason (program_of running.old.rules) (script_in script.now)
        (config_of running.old.config) events.now) }
{
    match events {
        [] => reason_of_end(&running.rules, &mut running.config, script),
        [event, ..] => reason_of(&running.rules, &mut running.config, script, event),
    }
}
