//! The run up to where it stops.

ghost use Rattle.std.specs.Prelude.{◌≡◌, ◌<◌, ◌≤◌, ◌↔◌, IfOk, IsSomeAnd, IsTrue};
ghost use Rattle.machine_semantics.specs.Image.{Image};
ghost use Rattle.vm_runner.specs.Completing.{NoneBetween};
ghost use Rattle.vm_runner.specs.Runnable.{IsRunnable};
ghost use Rattle.vm_releases.specs.Begin.{script_of};
ghost use Rattle.vm_state.specs.Plan.{IsOf};
ghost use Rattle.command_due.specs.Stops.{IsStop};
ghost use Rattle.vm_stretch.specs.Completed.{last_completed};
ghost use Rattle.vm_watch.specs.Follows.{Follows};

use base::Event;
use circular_buffer::HeapCircularBuffer;
use command_words::Breakpoint;
use out_of_memory::OutOfMemory;
use script::Script;
use std::alloc::Global;
use vm_runner::{Machine, Ranking};
use vm_state::DecodedImage;
use vm_stretch::Completed;

/// How many events are shown at most.
const SHOWN_EVENTS: usize = 16;

/// A run that is followed: its machine, and the last events before the machine's tick.
#[derive(Drop)]
pub(crate) struct Course {
    pub machine: Machine<Ranking>,
    pub recent: HeapCircularBuffer<Event>,
}

/// Whether an instruction was completed, and stands at the address.
fn is_at(completed: Option<Completed>, address: u32) -> bool
    ensures { IsTrue result ↔ IsSomeAnd completed (λ c. c.at ≡ address) }
{
    match completed {
        Some(completed) => completed.at == address as usize,
        None => false,
    }
}

impl Course {
    /// The run before tick 0; an error says that memory is short.
    pub(crate) fn new(
        alloc: Global,
        plan: &DecodedImage,
        script: &Script,
    ) -> Result<Course, OutOfMemory>
        ghost image: { Image }
        requires plan { IsOf image plan.now }
        requires runnable { IsRunnable image (script_of script.now) }
        ensures start { IfOk result (λ course. course.machine.tick ≡ 0) }
        ensures follows { IfOk result (Follows image (script_of script.now)) }
    {
        let machine = Machine::by_ranks(alloc, plan, script)?;
        let recent = HeapCircularBuffer::with_capacity(alloc, SHOWN_EVENTS)?;
        Ok(Course { machine, recent })
    }

    /// One turn, up to the limit at most: the instruction whose effect came in its last tick.
    fn turn(&mut self, plan: &DecodedImage, script: &Script, limit: u64) -> Option<Completed>
        ghost image: { Image }
        requires plan { IsOf image plan.now }
        requires runnable { IsRunnable image (script_of script.now) }
        requires follows { Follows image (script_of script.now) self.old }
        requires limit { limit ≤ script.now.end }
        requires before { self.old.machine.tick < limit }
        ensures follows { Follows image (script_of script.now) self.new }
        ensures passed { self.old.machine.tick < self.new.machine.tick }
        ensures within { self.new.machine.tick ≤ limit }
        ensures last { result ≡
            last_completed image (script_of script.now) self.new.machine.tick }
        ensures sole { NoneBetween image (script_of script.now)
            self.old.machine.tick self.new.machine.tick }
    {
        let completed = self.machine.follow(plan, script, limit);
        self.recent.extend_from_slice(self.machine.events());
        completed
    }

    /// Runs up to a tick, which is not below the machine's.
    pub(crate) fn go_to(&mut self, plan: &DecodedImage, script: &Script, tick: u64)
        ghost image: { Image }
        requires plan { IsOf image plan.now }
        requires runnable { IsRunnable image (script_of script.now) }
        requires follows { Follows image (script_of script.now) self.old }
        requires limit { tick ≤ script.now.end }
        requires later { self.old.machine.tick ≤ tick }
        ensures follows { Follows image (script_of script.now) self.new }
        ensures there { self.new.machine.tick ≡ tick }
    {
        while self.machine.tick() < tick {
            let _ = self.turn(plan, script, tick);
        }
    }

    /// Runs from the start until the instruction at the address has had its first effect, or to the
    /// end.
    pub(crate) fn go_past(&mut self, plan: &DecodedImage, script: &Script, address: u32)
        ghost image: { Image }
        requires plan { IsOf image plan.now }
        requires runnable { IsRunnable image (script_of script.now) }
        requires follows { Follows image (script_of script.now) self.old }
        requires start { self.old.machine.tick ≡ 0 }
        ensures follows { Follows image (script_of script.now) self.new }
        ensures stop { IsStop image (script_of script.now) (Breakpoint.Effect address)
            self.new.machine.tick }
    {
        let end = script.end();
        while self.machine.tick() < end {
            let completed = self.turn(plan, script, end);
            if is_at(completed, address) {
                return;
            }
        }
    }

    /// Runs from the start to where it stops.
    pub(crate) fn run(&mut self, plan: &DecodedImage, script: &Script, stop: Breakpoint)
        ghost image: { Image }
        requires plan { IsOf image plan.now }
        requires runnable { IsRunnable image (script_of script.now) }
        requires follows { Follows image (script_of script.now) self.old }
        requires start { self.old.machine.tick ≡ 0 }
        ensures follows { Follows image (script_of script.now) self.new }
        ensures stop { IsStop image (script_of script.now) stop self.new.machine.tick }
    {
        match stop {
            Breakpoint::Tick(tick) => self.go_to(plan, script, tick.min(script.end())),
            Breakpoint::Effect(address) => self.go_past(plan, script, address),
        }
    }
}
