//! Events, judged as acts.

ghost use Rattle.std.specs.Prelude.{IfOk, IsTrue, OnErr, Some, option_map, true, ◌↔◌, ◌≡◌};
ghost use Rattle.source_semantics.specs.Config.{is_ready as is_at_work};
ghost use Rattle.replay_state.specs.Tables.{Fits};
ghost use Rattle.replay_state.specs.View.{config_of, doing_of, next_of};
ghost use Rattle.replay_due_events.specs.Accepts.{Accepts};
ghost use Rattle.replay_script.specs.Cursors.{IsAt, script_in};
ghost use Rattle.replay_accept.specs.Directly.{IsActing, IsFound};
ghost use Rattle.replay_accept.specs.Judged.{IsNextOf, IsOpen, IsReady, IsToAct};
ghost use Rattle.replay_accept.specs.Running.{AreRules, IsFirstOf, program_of};

use crate::directly::act_directly;
use crate::rules::Rules;
use crate::{act, is_told, may_act};
use base::Event;
use out_of_memory::OutOfMemory;
use replay_calls::EvalContext;
use replay_direct::{FoundAction, found_action};
use replay_due_events::has_acted;
use replay_next::next_action;
use replay_script::ScriptCursor;
use replay_state::{Activity, Config, NextAction, ProcessState};

/// Whether it is work since a release.
fn is_work(doing: Activity) -> bool
    ensures { result ≡ is_at_work (doing_of doing) }
{
    match doing {
        Activity::Active { .. } => true,
        Activity::Idle | Activity::Waiting(_) => false,
    }
}

/// Whether there is such a process, and it is ready.
pub fn is_ready(config: &Config<'_>, process: usize) -> bool
    ensures { IsTrue result ↔ IsReady (config_of config.now) process }
{
    match config.jobs.get(process) {
        None => false,
        Some(job) => is_work(job.doing),
    }
}

/// Whether the process is the one that is kept.
fn is_kept(first: Option<usize>, process: usize) -> bool
    ensures { result ≡ true → first ≡ Some process }
{
    first == Some(process)
}

/// Whether the event's process is the one that is to act at its tick. Where the first of the ready
/// processes is known, no other is looked at.
fn is_to_act(rules: &Rules<'_>, config: &Config<'_>, first: Option<usize>, event: &Event) -> bool
    requires rules { AreRules rules.now }
    requires fits { Fits (program_of rules.now) (config_of config.now) }
    requires first { IsFirstOf (program_of rules.now) (config_of config.now) first }
    ensures { IsTrue result ↔ IsToAct (program_of rules.now) (config_of config.now) event.now }
{
    let process = usize::from(event.proc);
    if has_acted(config, event.tick) {
        false
    } else if is_kept(first, process) {
        true
    } else if is_ready(config, process) {
        rules.is_first(config, process)
    } else {
        false
    }
}

/// The job of a process, and over what its expressions are evaluated.
#[derive(Drop)]
pub(crate) struct ActingProcess<'c, 'a> {
    job: &'c ProcessState<'a>,
    scope: EvalContext<'a>,
}

/// The job of the process; `None` where there is no such process.
fn acting<'c, 'a>(
    rules: &Rules<'a>,
    config: &'c Config<'a>,
    process: usize,
) -> Option<ActingProcess<'c, 'a>>
    requires { AreRules rules.now }
    ensures { IsActing (program_of rules.now) (config_of config.now) process result }
{
    let text = &rules.text;
    let its = text.processes.get(process)?;
    let job = config.jobs.get(process)?;
    let scope = EvalContext {
        declarations: text.declarations,
        conditions: rules.conditions,
        process: its,
        alloc: text.alloc,
    };
    Some(ActingProcess { job, scope })
}

/// The next action of the process; `None` where there is no such process.
pub fn next_of_process<'a>(
    rules: &Rules<'a>,
    config: &Config<'a>,
    process: usize,
) -> Result<Option<NextAction<'a>>, OutOfMemory>
    requires { AreRules rules.now }
    ensures { IfOk result (λ next. IsNextOf (program_of rules.now) (config_of config.now) process
        (option_map next_of next)) }
{
    match acting(rules, config, process) {
        None => Ok(None),
        Some(ActingProcess { job, scope }) => {
            let next = next_action(&scope, rules.routines, config, process, job)?;
            Ok(Some(next))
        }
    }
}

/// The same, found without a run where that is possible.
fn found_of_process<'a>(
    rules: &Rules<'a>,
    config: &Config<'a>,
    process: usize,
) -> Result<Option<FoundAction<'a>>, OutOfMemory>
    requires { AreRules rules.now }
    ensures { IfOk result (λ found. IsFound (program_of rules.now) (config_of config.now) process
        found) }
{
    match acting(rules, config, process) {
        None => Ok(None),
        Some(ActingProcess { job, scope }) => {
            let found = found_action(&scope, rules.routines, config, process, job)?;
            Ok(Some(found))
        }
    }
}

/// Whether the event is what the next action of its process tells, where no start event is due up
/// to its tick; then the process acts. Want of memory leaves the configuration as it was.
pub fn act_by<'a>(
    rules: &Rules<'a>,
    config: &mut Config<'a>,
    script: &ScriptCursor<'_>,
    first: Option<usize>,
    event: &Event,
) -> Result<bool, OutOfMemory>
    requires rules { AreRules rules.now }
    requires fits { Fits (program_of rules.now) (config_of config.old) }
    requires first { IsFirstOf (program_of rules.now) (config_of config.old) first }
    requires script { IsAt config.old.tick script.now }
    requires opened { IsOpen (program_of rules.now) (script_in script.now)
        (config_of config.old) event.now }
    ensures accepts { IfOk result (λ acts. Accepts (program_of rules.now)
        (script_in script.now) (config_of config.old) event.now acts
        (config_of config.new)) }
    ensures err { OnErr result (config_of config.new ≡ config_of config.old) }
{
    if is_to_act(rules, config, first, event) {
        match found_of_process(rules, config, usize::from(event.proc))? {
            None => Ok(false),
            Some(FoundAction::Direct(action)) => Ok(act_directly(config, event, action)),
            Some(FoundAction::Ran(next)) => act_next(rules, config, script, event, next),
        }
    } else {
        Ok(false)
    }
}

/// The same of the process that is to act, whose next action this is.
fn act_next<'a>(
    rules: &Rules<'a>,
    config: &mut Config<'a>,
    script: &ScriptCursor<'_>,
    event: &Event,
    next: NextAction<'a>,
) -> Result<bool, OutOfMemory>
    requires rules { AreRules rules.now }
    requires script { IsAt config.old.tick script.now }
    requires opened { IsOpen (program_of rules.now) (script_in script.now)
        (config_of config.old) event.now }
    requires acts { IsToAct (program_of rules.now) (config_of config.old) event.now }
    requires next { IsNextOf (program_of rules.now) (config_of config.old) event.now.proc
        (Some (next_of next)) }
    ensures accepts { IfOk result (λ acts. Accepts (program_of rules.now)
        (script_in script.now) (config_of config.old) event.now acts
        (config_of config.new)) }
    ensures err { OnErr result (config_of config.new ≡ config_of config.old) }
{
    if may_act(config, next.action) {
        if is_told(config, script, event.tick, &next, event.act) {
            let process = usize::from(event.proc);
            act(config, &rules.text, script, event.tick, process, next)?;
            Ok(true)
        } else {
            Ok(false)
        }
    } else {
        Ok(false)
    }
}
