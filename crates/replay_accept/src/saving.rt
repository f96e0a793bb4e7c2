//! What the next action of a process leaves behind.

ghost use Rattle.std.specs.Prelude.{true, ◌≡◌};
ghost use Rattle.source_semantics.specs.Config.{at_tick, changed, inside as inside_of};
ghost use Rattle.source_semantics.specs.Source.{save_hold as hold_saved, saved};
ghost use Rattle.replay_state.specs.View.{calls_of, config_of, holds_of, jobs_of, next_of, vars_of};

use replay_state::{Call, Config, MonitorState, NextAction, ProcessState, Slot};

/// The process has these variables and calls now.
fn save_job<'a>(
    jobs: &mut Vec<ProcessState<'a>>,
    process: usize,
    vars: Vec<Slot<'a>>,
    calls: Vec<Call<'a>>,
)
    ensures { jobs_of jobs.new.items ≡ changed
        (λ j. record {
          vars = vars_of vars.entry.items;
          doing = j.doing;
          calls = calls_of calls.entry.items;
          handling = j.handling;
        }) process (jobs_of jobs.old.items) }
{
    if process < jobs.len() {
        let job = &mut jobs[process];
        job.vars = vars;
        job.calls = calls;
    }
}

/// The monitor has these variables now.
fn save_hold<'a>(holds: &mut Vec<MonitorState<'a>>, mon: usize, vars: Vec<Slot<'a>>)
    ensures { holds_of holds.new.items ≡ changed
        (λ h. record { vars = vars_of vars.entry.items; occupant = h.occupant })
        mon (holds_of holds.old.items) }
{
    if mon < holds.len() {
        holds[mon].vars = vars;
    }
}

/// The monitor that the process is inside, if any, has these variables now.
fn save_inside<'a>(config: &mut Config<'a>, process: usize, vars: Vec<Slot<'a>>)
    ensures { config_of config.new ≡ hold_saved (inside_of (config_of config.old) process)
        (vars_of vars.entry.items) (config_of config.old) }
{
    match config.inside(process) {
        None => {}
        Some(mon) => save_hold(&mut config.holds, mon, vars),
    }
}

/// What the next action of the process leaves behind stands in the configuration, and somebody has
/// acted at the tick.
pub fn save<'a>(config: &mut Config<'a>, tick: u64, process: usize, next: NextAction<'a>)
    ensures { config_of config.new ≡ saved (at_tick (config_of config.old) tick true) process
        (next_of next.entry) }
{
    let NextAction {
        action: _,
        calls,
        process: vars,
        monitor,
    } = next;
    save_job(&mut config.jobs, process, vars, calls);
    config.tick = tick;
    config.acted = true;
    save_inside(config, process, monitor);
}
