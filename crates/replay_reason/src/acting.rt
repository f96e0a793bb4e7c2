//! The process that is to act.

ghost use Rattle.std.specs.Prelude.{IfNone, IfSome, IsTrue, [], length, ◌<◌, ◌↔◌, ◌≡◌};
ghost use Rattle.syntax_tree.specs.Plain.{Program};
ghost use Rattle.source_semantics.specs.Source.{before, is_empty, ready_from};
ghost use Rattle.replay_state.specs.Tables.{AreRanksOf, Fits};
ghost use Rattle.replay_state.specs.View.{config_of};
ghost use Rattle.replay_accept.specs.Running.{AreRules, program_of};
ghost use Rattle.replay_reason_spec.specs.Reasons.{ActsNext};

use replay_accept::{Rules, is_ready};
use replay_state::Config;

/// Whether no ready process of the program is taken before this one.
fn is_first(rules: &Rules<'_>, config: &Config<'_>, process: usize) -> bool
    ghost program: { Program }
    requires ranks { AreRanksOf program rules.now.ranks }
    requires fits { Fits program (config_of config.now) }
    requires process { process < length (config_of config.now).jobs }
    ensures { result ≡ is_empty (before program (config_of config.now) process
        (ready_from 0 (config_of config.now).jobs)) }
{
    rules.ranks.is_first(config, process)
}

/// Whether the process is ready, and no ready process is taken before it.
fn acts_next(rules: &Rules<'_>, config: &Config<'_>, process: usize) -> bool
    requires rules { AreRules rules.now }
    requires fits { Fits (program_of rules.now) (config_of config.now) }
    ensures { IsTrue result ↔ ActsNext (program_of rules.now) (config_of config.now) process }
{
    if is_ready(config, process) {
        is_first(rules, config, process)
    } else {
        false
    }
}

/// The process that is to act, if one is ready.
pub fn first_ready(rules: &Rules<'_>, config: &Config<'_>) -> Option<usize>
    requires rules { AreRules rules.now }
    requires fits { Fits (program_of rules.now) (config_of config.now) }
    ensures some { IfSome result (ActsNext (program_of rules.now) (config_of config.now)) }
    ensures none { IfNone result (ready_from 0 (config_of config.now).jobs ≡ []) }
{
    for process in 0..config.jobs.len() {
        if acts_next(rules, config, process) {
            return Some(process);
        }
    }
    None
}
