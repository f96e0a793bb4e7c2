//! The start event that is due next.

ghost use Rattle.std.specs.Prelude.{IfNone, IfSome, IsTrue, option_map, ◌<◌, ◌^◌, ◌↔◌, ◌≡◌, ◌≤◌};
ghost use Rattle.syntax_tree.specs.Plain.{Program};
ghost use Rattle.source_semantics.specs.Starts.{NoneMissing, due};
ghost use Rattle.replay_due_events.specs.NextDue.{FramesPass};
ghost use Rattle.replay_due_events.specs.Timings.{IsTimetableOf, event_of as started, first_in};
ghost use Rattle.replay_reason_spec.specs.Events.{event_of};
ghost use Rattle.replay_reason_spec.specs.Missing.{IsNextStart};
ghost use Rattle.replay_accept.specs.Running.{program_of};
ghost use Rattle.replay_script.specs.Cursors.{IsWithin, script_in};
ghost use Rattle.replay_state.specs.Tables.{Fits};
ghost use Rattle.replay_state.specs.View.{config_of};
ghost use Rattle.replay_reason.specs.Following.{Follows, IsNextTick};
ghost use Rattle.replay_reason.specs.Starting.{start_event};

use replay_accept::Rules;
use replay_due_events::{Start, is_none_missing_before};
use replay_reason_spec::{SourceAct, SourceEvent};
use replay_script::ScriptCursor;
use replay_state::Config;

/// A start event that is due at a tick.
#[derive(Clone, Copy)]
pub struct DueStart {
    pub tick: u64,
    pub start: Start,
}

/// Whether no start event of the program due before the tick is missing.
fn none_missing(
    rules: &Rules<'_>,
    config: &Config<'_>,
    script: &ScriptCursor<'_>,
    until: u64,
) -> bool
    ghost program: { Program }
    requires table { IsTimetableOf program rules.now.table }
    requires frames { FramesPass program }
    requires fits { Fits program (config_of config.now) }
    requires tick { config.now.tick < 2 ^ 61 }
    requires script { IsWithin config.now.tick script.now }
    ensures { NoneMissing program (script_in script.now) (config_of config.now) until ↔
        IsTrue result }
{
    is_none_missing_before(&rules.table, config, script.up_to(until), until, 0)
}

/// The same of the program whose tables these are.
fn is_none_missing(
    rules: &Rules<'_>,
    config: &Config<'_>,
    script: &ScriptCursor<'_>,
    until: u64,
) -> bool
    requires { Follows rules.now config.now script.now }
    ensures { NoneMissing (program_of rules.now) (script_in script.now) (config_of config.now)
        until ↔ IsTrue result }
{
    none_missing(rules, config, script, until)
}

/// The first start event of the program that is due at the tick and has not come, if there is one.
fn first_at(
    rules: &Rules<'_>,
    config: &Config<'_>,
    script: &ScriptCursor<'_>,
    tick: u64,
) -> Option<Start>
    ghost program: { Program }
    requires table { IsTimetableOf program rules.now.table }
    requires frames { FramesPass program }
    requires script { IsWithin tick script.now }
    ensures { option_map (started tick) result ≡
        first_in (due program (script_in script.now) (config_of config.now) tick) }
{
    rules.table.first_due(config, script.up_to(tick), tick)
}

/// The same of the program whose tables these are.
fn start_at(
    rules: &Rules<'_>,
    config: &Config<'_>,
    script: &ScriptCursor<'_>,
    tick: u64,
) -> Option<Start>
    requires follows { Follows rules.now config.now script.now }
    requires reached { config.now.tick ≤ tick }
    ensures { option_map (started tick) result ≡ first_in (due (program_of rules.now)
        (script_in script.now) (config_of config.now) tick) }
{
    first_at(rules, config, script, tick)
}

/// The tick of the first start event that is due before a tick and has not come, if there is one.
fn next_tick(
    rules: &Rules<'_>,
    config: &Config<'_>,
    script: &ScriptCursor<'_>,
    until: u64,
) -> Option<u64>
    requires { Follows rules.now config.now script.now }
    ensures some { IfSome result (IsNextTick (program_of rules.now) (script_in script.now)
        (config_of config.now) until) }
    ensures none { IfNone result (NoneMissing (program_of rules.now) (script_in script.now)
        (config_of config.now) until) }
{
    if is_none_missing(rules, config, script, until) {
        return None;
    }
    let mut free = config.tick;
    let mut missing = until;
    while free + 1 < missing {
        let middle = free + (missing - free) / 2;
        if is_none_missing(rules, config, script, middle) {
            free = middle;
        } else {
            missing = middle;
        }
    }
    Some(free)
}

/// The first start event that is due before a tick and has not come, if there is one.
pub fn next_start(
    rules: &Rules<'_>,
    config: &Config<'_>,
    script: &ScriptCursor<'_>,
    until: u64,
) -> Option<DueStart>
    requires { Follows rules.now config.now script.now }
    ensures some { IfSome result (λ due. IsNextStart (program_of rules.now) (script_in script.now)
        (config_of config.now) until (start_event due)) }
    ensures none { IfNone result (NoneMissing (program_of rules.now) (script_in script.now)
        (config_of config.now) until) }
{
    match next_tick(rules, config, script, until) {
        None => None,
        Some(tick) => match start_at(rules, config, script, tick) {
            None => None,
            Some(start) => Some(DueStart { tick, start }),
        },
    }
}

/// The start event, as an event.
pub fn source_event(due: DueStart) -> SourceEvent
    ensures { event_of result ≡ start_event due }
{
    let tick = due.tick;
    match due.start {
        Start::Release { process } => SourceEvent {
            tick,
            process,
            act: SourceAct::Release,
        },
        Start::TimeOut {
            process,
            condition,
            number,
        } => SourceEvent {
            tick,
            process,
            act: SourceAct::TimeOut {
                cond: condition,
                number,
            },
        },
    }
}
