//! Until when neither the clock nor a wait starts a process.

ghost use Rattle.std.specs.Prelude.{List, ◌<◌, ◌+◌, ◌^◌};
ghost use Rattle.replay_state.specs.View.{config_of};
ghost use Rattle.replay_due_events.specs.Next.{AreOthersAfter, AreWaitsAfter, IsQuiet};
ghost use Rattle.replay_due_events.specs.NextDue.{due_from};
ghost use Rattle.replay_due_events.specs.Timings.{FramesCount, IsClockFree};
ghost use Rattle.replay_due_events.specs.declared.timetable.Timing.{Timing};

use replay_due_events::{Timetable, quiet_until};
use replay_state::Config;

/// The tick before which neither the clock nor a wait starts a process from the first tick on at
/// which a start event can be missing, where neither does after the tick reached and before a tick.
pub fn free_until(config: &Config<'_>, next_start: u64) -> u64
    ensures clock { (timings : List Timing) → IsQuiet timings (config_of config.now) next_start →
        IsClockFree timings (due_from (config_of config.now)) result }
    ensures waits { (timings : List Timing) → IsQuiet timings (config_of config.now) next_start →
        AreWaitsAfter result (config_of config.now).jobs }
{
    if config.acted { next_start } else { 0 }
}

/// A tick before which neither the clock nor a wait starts a process after the tick reached, where
/// it is known that none but a wait of this process does before another.
pub fn next_start_after(table: &Timetable, config: &Config<'_>, process: usize, known: u64) -> u64
    requires frames { FramesCount table.now.timings.items }
    requires tick { config.now.tick < 2 ^ 61 }
    requires clock { IsClockFree table.now.timings.items (config.now.tick + 1) known }
    requires others { AreOthersAfter process known (config_of config.now).jobs }
    ensures { IsQuiet table.now.timings.items (config_of config.now) result }
{
    quiet_until(table.timings.as_slice(), config, process, known)
}
