//! Whether an event is the start event that is due next.

ghost use Rattle.std.specs.Prelude.{IsTrue, false, ◌↔◌, ◌≡◌};
ghost use Rattle.base.specs.declared.event.Act.TheVariants as act_is;
ghost use Rattle.source_semantics.specs.Config.{Config as SourceConfig};
ghost use Rattle.replay_reason_spec.specs.Missing.{MayCome};
ghost use Rattle.replay_reason.specs.Starting.{start_event};

use crate::next_start::DueStart;
use base::Event;
use replay_accept::is_release;
use replay_due_events::Start;

/// Whether the event is this release of the process.
fn is_release_of(event: &Event, tick: u64, process: usize) -> bool
    ensures { IsTrue result ↔ (event.now ≡ record {
      tick = tick;
      proc = process;
      act = act_is.Release;
    }) }
{
    is_release(event.act) && event.tick == tick && usize::from(event.proc) == process
}

/// Whether the event is this start event, and one that may not come at times.
pub fn is_same(event: &Event, due: DueStart) -> bool
    ensures same { IsTrue result → event.now ≡ start_event due }
    ensures other { result ≡ false → event.now ≡ start_event due →
        ((c : SourceConfig) → MayCome c event.now) }
{
    match due.start {
        Start::Release { process } => is_release_of(event, due.tick, process),
        Start::TimeOut { .. } => false,
    }
}
