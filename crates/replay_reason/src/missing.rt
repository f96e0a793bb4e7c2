//! Start events that are missing.

ghost use Rattle.std.specs.Prelude.{IfOk, ◌≤◌};
ghost use Rattle.replay_state.specs.View.{config_of};
ghost use Rattle.replay_accept.specs.Running.{program_of};
ghost use Rattle.replay_script.specs.Cursors.{script_in};
ghost use Rattle.replay_reason_spec.specs.Events.{events_of};
ghost use Rattle.replay_reason_spec.specs.Missing.{AreMissing};
ghost use Rattle.replay_reason_spec.specs.Reasons.{most};
ghost use Rattle.replay_reason.specs.Following.{Follows};
ghost use Rattle.replay_reason.specs.Starting.{Takes};

use crate::next_start::{next_start, source_event};
use out_of_memory::OutOfMemory;
use replay_accept::{Rules, come};
use replay_reason_spec::SourceEvent;
use replay_script::ScriptCursor;
use replay_state::Config;

/// So many start events that are missing are listed.
const MOST: usize = 9;

/// Lists the start event that is due next before a tick, and lets it come; whether another may be
/// due after it.
fn take_next<'a>(
    rules: &Rules<'a>,
    config: &mut Config<'a>,
    script: &ScriptCursor<'_>,
    until: u64,
    found: &mut Vec<SourceEvent>,
) -> Result<bool, OutOfMemory>
    requires follows { Follows rules.now config.old script.now }
    requires until { until ≤ script.now.script.now.end }
    ensures takes { IfOk result (λ goes. Takes (program_of rules.now) (script_in script.now) until
        (config_of config.old) goes (config_of config.new) (events_of found.old.items)
        (events_of found.new.items)) }
    ensures follows { IfOk result (λ goes. Follows rules.now config.new script.now) }
{
    match next_start(rules, config, script, until) {
        None => Ok(false),
        Some(due) => {
            found.push(source_event(due))?;
            come(rules, config, due.tick, due.start)
        }
    }
}

/// The first start events that are due before a tick and have not come, each let come before the
/// next is asked for.
pub fn missing<'a>(
    rules: &Rules<'a>,
    config: &mut Config<'a>,
    script: &ScriptCursor<'_>,
    until: u64,
) -> Result<Vec<SourceEvent>, OutOfMemory>
    requires follows { Follows rules.now config.old script.now }
    requires until { until ≤ script.now.script.now.end }
    ensures { IfOk result (λ found. AreMissing (program_of rules.now) (script_in script.now) until
        most (config_of config.old) (events_of found.items)) }
{
    let mut found = Vec::new(rules.text.alloc);
    for _turn in 0..MOST {
        if !take_next(rules, config, script, until, &mut found)? {
            return Ok(found);
        }
    }
    Ok(found)
}
