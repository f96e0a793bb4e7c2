//! The laws, for every image that meets the premise, every script and every tick.
//!
//! Each is a statement of `specs/`. The premise is `ImageFits` of
//! `machine_semantics/specs/Safe.antt`, the invariant `StateFits` of
//! `machine_semantics/specs/Whole.antt`.

ghost use Rattle.machine_semantics.specs.Job.{InstructionIsSafe};
ghost use Rattle.machine_semantics.specs.SafeTerms.{PlainIsSafe};
ghost use Rattle.machine_semantics.specs.Safe.{TickIsSafe};
ghost use Rattle.machine_semantics.specs.Whole.{EveryTickIsSafe, RunFits, EveryRunIsSafe, RunKeepsWords};
ghost use Rattle.machine_semantics.specs.Queues.{TickKeepsQueues, RunKeepsQueues};
ghost use Rattle.machine_semantics.specs.Stays.{StayFalls, StayBegins, EntersFree};
ghost use Rattle.machine_semantics.specs.Waits.{SuspensionFalls, SuspensionBegins, ReleaseSuspends};
ghost use Rattle.machine_semantics.specs.Work.{ReleaseOwes, WorkFalls, WorkBegins};

/// An instruction of a line is not stuck, and leaves the operands that its row says.
pub fn plain_is_safe()
    ensures { PlainIsSafe }
{}

/// An instruction of a process that fits its trees is not stuck, and the process fits them after
/// it, with less to do.
pub fn instruction_is_safe()
    ensures { InstructionIsSafe }
{}

/// A tick of a ready process is not stuck, and leaves less to do.
pub fn tick_is_safe()
    ensures { TickIsSafe }
{}

/// Every tick of a valid image is not stuck, and keeps what the next needs.
pub fn every_tick_is_safe()
    ensures { EveryTickIsSafe }
{}

/// Before every tick of every run of a valid image the state fits.
pub fn run_fits()
    ensures { RunFits }
{}

/// In a whole run of a valid image no tick is stuck, each process is within its stack, and those
/// inside monitors are apart and ready.
pub fn every_run_is_safe()
    ensures { EveryRunIsSafe }
{}

/// A process that is not idle may run for one tick less after each tick that it runs in.
pub fn work_falls()
    ensures { WorkFalls }
{}

/// A process that is released owes a whole activation, with its burn ticks.
pub fn release_owes()
    ensures { ReleaseOwes }
{}

/// A process inside a monitor is one tick nearer to leaving it after each tick that it runs in.
pub fn stay_falls()
    ensures { StayFalls }
{}

/// A tick keeps each process that waits once in the queue of its condition, and in no other.
pub fn tick_keeps_queues()
    ensures { TickKeepsQueues }
{}

/// In a whole run a process stands in a condition's queue once where it waits on it, and nowhere
/// else.
pub fn run_keeps_queues()
    ensures { RunKeepsQueues }
{}

/// The ticks in which an unfinished process may still wait fall with each that it waits in, and the
/// waits to come with each that begins.
pub fn suspension_falls()
    ensures { SuspensionFalls }
{}

/// A process that is released may wait as long, and as often, as its body may.
pub fn release_suspends()
    ensures { ReleaseSuspends }
{}

/// A process that is idle before a tick is idle after it, or was released in it with a whole
/// activation to run.
pub fn work_begins()
    ensures { WorkBegins }
{}

/// A process that is idle before a tick is idle after it, or was released in it with all its waits
/// to come.
pub fn suspension_begins()
    ensures { SuspensionBegins }
{}

/// A process that enters a monitor leaves it within the stay that its part tells.
pub fn stay_begins()
    ensures { StayBegins }
{}

/// A process that may enter a monitor finds it free.
pub fn enters_free()
    ensures { EntersFree }
{}

/// Each process keeps as many words as it declares.
pub fn run_keeps_words()
    ensures { RunKeepsWords }
{}
