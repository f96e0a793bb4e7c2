//! Whether a log is that of a run of a program over a script.
//!
//! The events are judged in turn by the source meaning, each as its line is read. `judge` tells
//! `Run` exactly where each is allowed after those before it and at the end no start event is
//! missing, and else the first line that is refused, with the reason (`Finding` of
//! `replay_reason_spec`). A fault of the text comes before, wherever it stands.
//!
//! Events, judged in turn.

ghost use Rattle.std.specs.Prelude.{IfErr, IfOk, List, length, ℕ, [], ◌++◌, ◌∷◌, ◌<◌, ◌^◌, ◌≡◌};
ghost use Rattle.out_of_memory.specs.Refused.{refused};
ghost use Rattle.base.specs.declared.event.Event.{Event as Event_spec};
ghost use Rattle.event_log.specs.Reader.{HasRead, IsReader, names_of};
ghost use Rattle.event_log.specs.declared.fault.LogFault.TheVariants as fault;
ghost use Rattle.replay.specs.Judging.{IsFaultOf, IsFoundOf};
ghost use Rattle.replay_script.specs.Cursors.{IsAt, script_in};
ghost use Rattle.replay_accept.specs.Running.{Stands, program_of};
ghost use Rattle.replay_state.specs.View.{config_of};
ghost use Rattle.script.specs.Meaning.{said};
ghost use Rattle.source_semantics.specs.Config.{Config as SourceConfig};
ghost use Rattle.source_semantics.specs.Verdicts.{Allowed, Stops};
ghost use Rattle.replay_reason_spec.specs.Findings.{Finds};

use base::Event;
use event_log::{LogFault, LogReader};
use replay_accept::Running;
use replay_reason::find_reason;
use replay_reason_spec::Finding;
use replay_script::ScriptCursor;
use script::Script;

/// What is found of a log whose line that was read last tells this event, which is not allowed. The
/// lines behind it are read for their faults alone.
fn refuse(
    running: &mut Running<'_>,
    script: &ScriptCursor<'_>,
    reader: &mut LogReader<'_>,
    event: &Event,
) -> Result<Finding, LogFault>
    requires stands { Stands running.old }
    requires script { IsAt running.old.config.tick script.now }
    requires end { script.now.script.now.end < 2 ^ 61 }
    requires reader { IsReader reader.old }
    requires stops { Stops (program_of running.old.rules) (script_in script.now)
        (config_of running.old.config) (event.now ∷ []) }
    ensures found { IfOk result (λ found. (begun : SourceConfig) (text : List ℕ)
        (before : List Event_spec) → HasRead text (before ++ event.now ∷ []) reader.old →
        Allowed (program_of running.old.rules) (script_in script.now) begun before
        (config_of running.old.config) →
        IsFoundOf (program_of running.old.rules) (script_in script.now) begun
        (names_of reader.old) text found reader.new.lines) }
    ensures fault { IfErr result (λ why. (text : List ℕ) (events : List Event_spec) →
        HasRead text events reader.old → IsFaultOf (names_of reader.old) text why) }
{
    let line = reader.lines();
    reader.read_to_end()?;
    let reason = find_reason(running, script, &[*event])?;
    Ok(Finding::Refused { line, reason })
}

/// What is found of so many events, all of which are allowed: from each configuration from which
/// they lead to the one at hand.
fn judge_end(
    running: &mut Running<'_>,
    script: &ScriptCursor<'_>,
    count: u32,
) -> Result<Finding, LogFault>
    requires stands { Stands running.old }
    requires script { IsAt running.old.config.tick script.now }
    requires end { script.now.script.now.end < 2 ^ 61 }
    requires few { count < 4294967295 }
    ensures found { IfOk result (λ found. (begun : SourceConfig) (events : List Event_spec) →
        count ≡ length events →
        Allowed (program_of running.old.rules) (script_in script.now) begun events
        (config_of running.old.config) →
        Finds (program_of running.old.rules) (script_in script.now) begun events found) }
    ensures fault { IfErr result (λ why. why ≡ fault.Memory refused) }
{
    if running.is_complete(script) {
        return Ok(Finding::Run);
    }
    let reason = find_reason(running, script, &[])?;
    Ok(Finding::Refused {
        line: count + 1,
        reason,
    })
}

/// What is found of the log of which no line is read yet, over the script, which has reached the
/// tick of the configuration at hand.
fn judge_over(
    running: &mut Running<'_>,
    script: &mut ScriptCursor<'_>,
    reader: &mut LogReader<'_>,
) -> Result<Finding, LogFault>
    requires stands { Stands running.old }
    requires script { IsAt running.old.config.tick script.old }
    requires end { script.old.script.now.end < 2 ^ 61 }
    requires reader { IsReader reader.old }
    ensures found { IfOk result (λ found. (text : List ℕ) → HasRead text [] reader.old →
        IsFoundOf (program_of running.old.rules) (script_in script.old)
        (config_of running.old.config) (names_of reader.old) text found reader.new.lines) }
    ensures fault { IfErr result (λ why. (text : List ℕ) → HasRead text [] reader.old →
        IsFaultOf (names_of reader.old) text why) }
{
    while let Some(event) = reader.next()? {
        if !running.accept(script, &event)? {
            return refuse(running, script, reader, &event);
        }
    }
    judge_end(running, script, reader.lines())
}

/// What is found of the log of which no line is read yet, over the script from the configuration at
/// hand. It fails only where the text is no log, or where memory is wanting.
pub fn judge(
    running: &mut Running<'_>,
    script: &Script,
    reader: &mut LogReader<'_>,
) -> Result<Finding, LogFault>
    requires stands { Stands running.old }
    requires end { script.now.end < 2 ^ 61 }
    requires reader { IsReader reader.old }
    ensures found { IfOk result (λ found. (text : List ℕ) → HasRead text [] reader.old →
        IsFoundOf (program_of running.old.rules) (said script.now.lines script.now.end)
        (config_of running.old.config) (names_of reader.old) text found reader.new.lines) }
    ensures fault { IfErr result (λ why. (text : List ℕ) → HasRead text [] reader.old →
        IsFaultOf (names_of reader.old) text why) }
{
    let mut cursor = ScriptCursor::new(running.rules.text.alloc, script)?;
    cursor.pass(running.config.tick);
    judge_over(running, &mut cursor, reader)
}
