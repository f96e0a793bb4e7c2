//! A program that runs by its events.

ghost use Rattle.std.specs.Prelude.{IfOk, IfSome, Ok, OnErr, true, ◌<◌, ◌^◌, ◌≡◌};
ghost use Rattle.replay_state.specs.Tables.{Fits};
ghost use Rattle.replay_state.specs.View.{config_of};
ghost use Rattle.replay_due_events.specs.Accepts.{Accepts, IsComplete};
ghost use Rattle.replay_due_events.specs.Next.{IsQuiet};
ghost use Rattle.replay_script.specs.Cursors.{IsAt, script_in};
ghost use Rattle.replay_accept.specs.Running.{AreRules, IsFirstOf, Stands, keeps_first as keeps_order, program_of};

use crate::act_events::act_by;
use crate::begin::{Begun, begin};
use crate::rules::Rules;
use base::{Act, Event};
use out_of_memory::OutOfMemory;
use replay_script::{ScriptCursor, next_start_after};
use replay_state::Config;

/// A program's tables, its configuration, and what is known of the start events to come.
#[derive(Drop)]
pub struct Running<'a> {
    pub rules: Rules<'a>,
    pub config: Config<'a>,
    /// After the tick reached and before this one neither the clock nor a wait starts a process.
    pub next_start: u64,
    /// A process that is known to be ready, with no ready process taken before it.
    pub first: Option<usize>,
}

/// Whether the event is allowed next; the configuration is then the one after it.
fn accept_by<'a>(
    rules: &Rules<'a>,
    config: &mut Config<'a>,
    script: &ScriptCursor<'_>,
    next_start: u64,
    first: Option<usize>,
    event: &Event,
) -> Result<bool, OutOfMemory>
    requires rules { AreRules rules.now }
    requires fits { Fits (program_of rules.now) (config_of config.old) }
    requires tick { config.old.tick < 2 ^ 61 }
    requires script { IsAt config.old.tick script.now }
    requires quiet { IsQuiet rules.now.table.timings.items (config_of config.old) next_start }
    requires first { IsFirstOf (program_of rules.now) (config_of config.old) first }
    ensures accepts { IfOk result (λ accepted. Accepts (program_of rules.now)
        (script_in script.now) (config_of config.old) event.now accepted
        (config_of config.new)) }
    ensures err { OnErr result (config_of config.new ≡ config_of config.old) }
{
    match begin(rules, config, script, next_start, event)? {
        Begun::Refused => Ok(false),
        Begun::Started => Ok(true),
        Begun::Open => act_by(rules, config, script, first, event),
    }
}

/// Whether the act changes neither what processes are doing nor who is inside a monitor.
fn keeps_first(act: Act) -> bool
    ensures { result ≡ keeps_order act }
{
    matches!(act, Act::Get { .. } | Act::Put { .. } | Act::Empty { .. })
}

/// The process of an event that was accepted, if it stays the first.
fn first_after(event: &Event, accepted: &Result<bool, OutOfMemory>) -> Option<usize>
    ensures { IfSome result (λ k. (accepted.now ≡ Ok true) × (keeps_order event.now.act ≡ true) ×
        (k ≡ event.now.proc)) }
{
    match accepted {
        Ok(true) => {
            if keeps_first(event.act) {
                Some(usize::from(event.proc))
            } else {
                None
            }
        }
        _ => None,
    }
}

impl<'a> Running<'a> {
    /// Whether the event is allowed next; the configuration is then the one after it, else the one
    /// before it. Want of memory leaves the configuration as it was. The script goes on to the
    /// tick that is reached.
    pub fn accept(
        &mut self,
        script: &mut ScriptCursor<'_>,
        event: &Event,
    ) -> Result<bool, OutOfMemory>
        requires stands { Stands self.old }
        requires script { IsAt self.old.config.tick script.old }
        requires end { script.old.script.now.end < 2 ^ 61 }
        ensures accepts { IfOk result (λ accepted. Accepts (program_of self.old.rules)
            (script_in script.old) (config_of self.old.config) event.now accepted
            (config_of self.new.config)) }
        ensures err { OnErr result (config_of self.new.config ≡ config_of self.old.config) }
        ensures stands { Stands self.new }
        ensures rules { self.new.rules ≡ self.old.rules }
        ensures script { IsAt self.new.config.tick script.new }
        ensures same { script.new.script ≡ script.old.script }
    {
        let known = self.next_start;
        let first = self.first;
        let accepted = accept_by(&self.rules, &mut self.config, script, known, first, event);
        script.pass(self.config.tick);
        let process = usize::from(event.proc);
        self.next_start = next_start_after(&self.rules.table, &self.config, process, known);
        self.first = first_after(event, &accepted);
        accepted
    }

    /// Whether no start event that is due before the script's end is missing.
    pub fn is_complete(&self, script: &ScriptCursor<'_>) -> bool
        requires stands { Stands self.now }
        requires script { IsAt self.now.config.tick script.now }
        ensures { IsComplete (program_of self.now.rules) (script_in script.now)
            (config_of self.now.config) result }
    {
        self.rules
            .is_none_missing(&self.config, script, script.end(), self.next_start)
    }
}
