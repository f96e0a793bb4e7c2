//! The logs of small images, as values, and an image whose ceiling is too low a rank.

ghost use Rattle.std.specs.Prelude.{◌≡◌};
ghost use Rattle.machine_safety.specs.SmallImages.{low_ceiling, raiser_with_handler, until, waiter_and_signaller};
ghost use Rattle.machine_semantics.specs.Run.{events, state_at};
ghost use Rattle.machine_semantics.specs.Tick.{tick};

use base::{Act, Event};

/// The log of a wait that is signalled at the last tick that its limit permits.
pub fn signalled_at_last() -> [Event; 11]
    ensures { events (waiter_and_signaller 0 31) (until 100) ≡ result }
{
    [
        Event {
            tick: 0,
            proc: 0,
            act: Act::Release,
        },
        Event {
            tick: 10,
            proc: 0,
            act: Act::Enter { mon: 0 },
        },
        Event {
            tick: 16,
            proc: 0,
            act: Act::Wait { cond: 0 },
        },
        Event {
            tick: 31,
            proc: 1,
            act: Act::Release,
        },
        Event {
            tick: 41,
            proc: 1,
            act: Act::Enter { mon: 0 },
        },
        Event {
            tick: 46,
            proc: 1,
            act: Act::Signal {
                cond: 0,
                woken: Some(0),
            },
        },
        Event {
            tick: 49,
            proc: 1,
            act: Act::Leave { mon: 0 },
        },
        Event {
            tick: 53,
            proc: 0,
            act: Act::Enter { mon: 0 },
        },
        Event {
            tick: 56,
            proc: 0,
            act: Act::Leave { mon: 0 },
        },
        Event {
            tick: 64,
            proc: 0,
            act: Act::End,
        },
        Event {
            tick: 72,
            proc: 1,
            act: Act::End,
        },
    ]
}

/// The log of a process that raises inside a monitor, and of one that enters it while the first
/// one's handler is still to put.
pub fn entered_while_handled() -> [Event; 9]
    ensures { events raiser_with_handler (until 60) ≡ result }
{
    [
        Event {
            tick: 0,
            proc: 0,
            act: Act::Release,
        },
        Event {
            tick: 10,
            proc: 0,
            act: Act::Enter { mon: 0 },
        },
        Event {
            tick: 14,
            proc: 0,
            act: Act::Raise { number: 12 },
        },
        Event {
            tick: 20,
            proc: 1,
            act: Act::Release,
        },
        Event {
            tick: 30,
            proc: 1,
            act: Act::Enter { mon: 0 },
        },
        Event {
            tick: 33,
            proc: 1,
            act: Act::Leave { mon: 0 },
        },
        Event {
            tick: 41,
            proc: 1,
            act: Act::End,
        },
        Event {
            tick: 47,
            proc: 0,
            act: Act::Put { dev: 0, value: 1 },
        },
        Event {
            tick: 51,
            proc: 0,
            act: Act::End,
        },
    ]
}

/// Whether tick 37 is stuck, in which a process is to enter a monitor that a lower one is inside,
/// since the ceiling let it run.
pub fn occupied() -> bool
    ensures { (tick low_ceiling (until 90) 37 (state_at low_ceiling (until 90) 37)).stuck ≡ result }
{
    true
}
