//! Events, judged by their ticks.

ghost use Rattle.std.specs.Prelude.{IfOk, IsTrue, OnErr, ◌<◌, ◌^◌, ◌↔◌, ◌≡◌};
ghost use Rattle.replay_state.specs.Tables.{Fits};
ghost use Rattle.replay_state.specs.View.{config_of};
ghost use Rattle.replay_due_events.specs.Next.{IsQuiet};
ghost use Rattle.replay_due_events.specs.Timings.{event_of};
ghost use Rattle.replay_script.specs.Cursors.{IsAt, script_in};
ghost use Rattle.replay_accept.specs.Judged.{Begins, ComesAs, IsInTime, IsOpen};
ghost use Rattle.replay_accept.specs.Running.{AreRules, program_of};

use crate::rules::Rules;
use crate::starting::{come, is_release, is_start};
use base::Event;
use out_of_memory::OutOfMemory;
use replay_due_events::Start;
use replay_script::ScriptCursor;
use replay_state::Config;

/// What an event is by its tick.
#[derive(Clone, Copy)]
pub enum Begun {
    /// It is not allowed.
    Refused,
    /// It is the start event that comes next, and it has come.
    Started,
    /// No start event is due up to its tick, so it is allowed exactly where it is an act of the
    /// process that is to act.
    Open,
}

/// Whether the event is before the script's end and not before the tick reached, and no start event
/// due before it is missing.
fn is_in_time(
    rules: &Rules<'_>,
    config: &Config<'_>,
    script: &ScriptCursor<'_>,
    next_start: u64,
    event: &Event,
) -> bool
    requires rules { AreRules rules.now }
    requires fits { Fits (program_of rules.now) (config_of config.now) }
    requires tick { config.now.tick < 2 ^ 61 }
    requires script { IsAt config.now.tick script.now }
    requires quiet { IsQuiet rules.now.table.timings.items (config_of config.now) next_start }
    ensures { IsTrue result ↔ IsInTime (program_of rules.now)
        (script_in script.now) (config_of config.now) event.now }
{
    if event.tick >= script.end() {
        return false;
    }
    if event.tick < config.tick {
        return false;
    }
    if event.tick == config.tick {
        return true;
    }
    rules.is_none_missing(config, script, event.tick, next_start)
}

/// Whether the event's tick is neither past nor at the script's end, and no start event due up to
/// it is missing, that tick included.
fn is_open(
    rules: &Rules<'_>,
    config: &Config<'_>,
    script: &ScriptCursor<'_>,
    next_start: u64,
    event: &Event,
) -> bool
    requires rules { AreRules rules.now }
    requires fits { Fits (program_of rules.now) (config_of config.now) }
    requires tick { config.now.tick < 2 ^ 61 }
    requires script { IsAt config.now.tick script.now }
    requires quiet { IsQuiet rules.now.table.timings.items (config_of config.now) next_start }
    ensures { IsTrue result ↔ IsOpen (program_of rules.now)
        (script_in script.now) (config_of config.now) event.now }
{
    if event.tick >= script.end() {
        return false;
    }
    if event.tick < config.tick {
        return false;
    }
    rules.is_none_missing(config, script, event.tick + 1, next_start)
}

/// Judges the event by its tick, and lets it come where it is the start event that comes next. Want
/// of memory leaves the configuration as it was.
pub fn begin<'a>(
    rules: &Rules<'a>,
    config: &mut Config<'a>,
    script: &ScriptCursor<'_>,
    next_start: u64,
    event: &Event,
) -> Result<Begun, OutOfMemory>
    requires rules { AreRules rules.now }
    requires fits { Fits (program_of rules.now) (config_of config.old) }
    requires tick { config.old.tick < 2 ^ 61 }
    requires script { IsAt config.old.tick script.now }
    requires quiet { IsQuiet rules.now.table.timings.items (config_of config.old) next_start }
    ensures begins { IfOk result (λ begun. Begins (program_of rules.now)
        (script_in script.now) (config_of config.old) event.now begun
        (config_of config.new)) }
    ensures err { OnErr result (config_of config.new ≡ config_of config.old) }
{
    if !is_release(event.act) {
        if is_open(rules, config, script, next_start, event) {
            return Ok(Begun::Open);
        }
    }
    if is_in_time(rules, config, script, next_start, event) {
        begin_in_time(rules, config, script, event)
    } else {
        Ok(Begun::Refused)
    }
}

/// The same of an event that is in time.
fn begin_in_time<'a>(
    rules: &Rules<'a>,
    config: &mut Config<'a>,
    script: &ScriptCursor<'_>,
    event: &Event,
) -> Result<Begun, OutOfMemory>
    requires rules { AreRules rules.now }
    requires script { IsAt config.old.tick script.now }
    requires time { IsInTime (program_of rules.now)
        (script_in script.now) (config_of config.old) event.now }
    ensures begins { IfOk result (λ begun. Begins (program_of rules.now)
        (script_in script.now) (config_of config.old) event.now begun
        (config_of config.new)) }
    ensures err { OnErr result (config_of config.new ≡ config_of config.old) }
{
    match rules.next_start(config, script, event.tick) {
        None => Ok(Begun::Open),
        Some(start) => {
            if is_start(event, start) {
                begin_start(rules, config, event.tick, start)
            } else {
                Ok(Begun::Refused)
            }
        }
    }
}

/// The same of the start event that comes next.
fn begin_start<'a>(
    rules: &Rules<'a>,
    config: &mut Config<'a>,
    tick: u64,
    start: Start,
) -> Result<Begun, OutOfMemory>
    requires { AreRules rules.now }
    ensures begins { IfOk result (λ begun. ComesAs (program_of rules.now) (config_of config.old)
        (event_of tick start) begun (config_of config.new)) }
    ensures err { OnErr result (config_of config.new ≡ config_of config.old) }
{
    if come(rules, config, tick, start)? {
        Ok(Begun::Started)
    } else {
        Ok(Begun::Refused)
    }
}
