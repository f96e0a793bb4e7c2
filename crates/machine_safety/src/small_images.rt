//! What the definitions say of small images.

ghost use Rattle.std.specs.Prelude.{◌≡◌};
ghost use Rattle.machine_semantics.specs.Run.{events};
ghost use Rattle.machine_semantics.specs.Trees.{Line, Nil, Cons};
ghost use Rattle.machine_safety.specs.SmallImages.{until, alone, idler, idled, putter, put_once, twice, put_twice, copier, set_twice, copied, out_of_range, handled, waiter_and_signaller, signalled, timed_out, raiser, raised_inside, adders, added};

/// A process with no statement ends in the four ticks of its END.
pub fn no_statement()
    ensures { events idler (until 10) ≡ idled }
{}

/// A put acts in its last tick, and the activation ends four ticks after it.
pub fn one_put()
    ensures { events (putter (alone 15 15 0 1 (Cons (Line 2) Nil))) (until 15) ≡ put_once }
{}

/// An event releases the process whenever it occurs.
pub fn an_event_twice()
    ensures { events (putter (record (alone 15 15 0 1 (Cons (Line 2) Nil)) { kind = 1 })) twice ≡
        put_twice }
{}

/// A get answers what is set while it is under way.
pub fn a_get()
    ensures { events copier set_twice ≡ copied }
{}

/// A value out of its range raises 3, which the handler takes.
pub fn a_handled_raise()
    ensures { events out_of_range (until 30) ≡ handled }
{}

/// The waiting process is signalled, and comes back in; each dispatch takes three ticks in and
/// three out.
pub fn a_wait_with_overhead()
    ensures { events (waiter_and_signaller 3 31) (until 100) ≡ signalled }
{}

/// The signal comes a tick too late.
pub fn a_time_out()
    ensures { events (waiter_and_signaller 0 32) (until 100) ≡ timed_out }
{}

/// A raise leaves the monitor.
pub fn a_raise_inside_a_monitor()
    ensures { events raiser (until 50) ≡ raised_inside }
{}

/// A process inside a monitor runs at its ceiling, below the rank of a third.
pub fn a_ceiling()
    ensures { events adders (until 90) ≡ added }
{}
