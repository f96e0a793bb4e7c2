//! What events are judged by.

ghost use Rattle.std.specs.Prelude.{IsTrue, length, option_map, ◌<◌, ◌^◌, ◌↔◌, ◌≡◌};
ghost use Rattle.syntax_tree.specs.Plain.{Program};
ghost use Rattle.source_semantics.specs.Source.{before, is_empty, ready_from};
ghost use Rattle.source_semantics.specs.Starts.{NoneMissing, due};
ghost use Rattle.replay_state.specs.Tables.{AreRanksOf, Fits};
ghost use Rattle.replay_state.specs.View.{config_of};
ghost use Rattle.replay_due_events.specs.Next.{IsQuiet};
ghost use Rattle.replay_due_events.specs.NextDue.{FramesPass};
ghost use Rattle.replay_due_events.specs.Timings.{IsTimetableOf, event_of, first_in};
ghost use Rattle.replay_script.specs.Cursors.{IsAt, IsWithin, script_in};

use replay_calls::NumberedConditions;
use replay_due_events::{Start, Timetable, is_none_missing_before};
use replay_script::{ScriptCursor, free_until};
use replay_state::{Config, ProgramContext, Ranks};

/// What of a program events are judged by: its text, its conditions by number, its timings, its
/// ranks and ceilings, and how many routines it has.
#[derive(Drop)]
pub struct Rules<'a> {
    pub text: ProgramContext<'a>,
    pub conditions: &'a NumberedConditions<'a>,
    pub table: Timetable,
    pub ranks: Ranks,
    /// Calls are nested at most so deep.
    pub routines: usize,
}

impl<'a> Rules<'a> {
    /// Whether no start event due before the tick is missing, where it is known that neither the
    /// clock nor a wait starts a process after the tick reached and before a tick.
    pub(crate) fn is_none_missing(
        &self,
        config: &Config<'_>,
        script: &ScriptCursor<'_>,
        until: u64,
        next_start: u64,
    ) -> bool
        ghost program: { Program }
        requires table { IsTimetableOf program self.now.table }
        requires frames { FramesPass program }
        requires fits { Fits program (config_of config.now) }
        requires tick { config.now.tick < 2 ^ 61 }
        requires script { IsAt config.now.tick script.now }
        requires quiet { IsQuiet self.now.table.timings.items (config_of config.now) next_start }
        ensures { NoneMissing program (script_in script.now) (config_of config.now) until ↔
            IsTrue result }
    {
        is_none_missing_before(
            &self.table,
            config,
            script.up_to(until),
            until,
            free_until(config, next_start),
        )
    }

    /// The first start event that is due at the tick and has not come, if there is one.
    pub(crate) fn next_start(
        &self,
        config: &Config<'_>,
        script: &ScriptCursor<'_>,
        tick: u64,
    ) -> Option<Start>
        ghost program: { Program }
        requires table { IsTimetableOf program self.now.table }
        requires frames { FramesPass program }
        requires script { IsWithin tick script.now }
        ensures { option_map (event_of tick) result ≡
            first_in (due program (script_in script.now) (config_of config.now) tick) }
    {
        self.table.first_due(config, script.up_to(tick), tick)
    }

    /// Whether no ready process is taken before this one.
    pub(crate) fn is_first(&self, config: &Config<'_>, process: usize) -> bool
        ghost program: { Program }
        requires ranks { AreRanksOf program self.now.ranks }
        requires fits { Fits program (config_of config.now) }
        requires process { process < length (config_of config.now).jobs }
        ensures { result ≡ is_empty (before program (config_of config.now) process
            (ready_from 0 (config_of config.now).jobs)) }
    {
        self.ranks.is_first(config, process)
    }
}
