//! What comes when.

ghost use Rattle.arrayvec.specs.ArrayVec.{array_vec_len};
ghost use Rattle.std.specs.Prelude.{◌≡◌, ◌≢◌, ◌≤◌, ◌<◌, ◌+◌, ◌*◌, [], IfOk, Some, false, drop, length, slice_set};
ghost use Rattle.machine_semantics.specs.Image.{Image};
ghost use Rattle.machine_semantics.specs.Run.{at_start};
ghost use Rattle.machine_semantics.specs.Starts.{lines, starts};
ghost use Rattle.vm_stretch.specs.Steps.{HasStarted};
ghost use Rattle.vm_stretch.specs.Due.{least};
ghost use Rattle.vm_stretch.specs.StretchDue.{AreInOrder, HasSlots, first_tick};
ghost use Rattle.vm_stretch.specs.StartLawsDue.{AreDone, HasDue, HasOwnRanks};
ghost use Rattle.vm_state.specs.Board.{IsBoardOf, state_of};
ghost use Rattle.vm_state.specs.Plan.{IsOf};
ghost use Rattle.vm_releases.specs.Begin.{AreFirst, HaveQueues, NextFits, lines_of, script_of};
ghost use Rattle.vm_releases.specs.Order.{IsOrderOf};

use crate::clock::{do_releases, do_time_outs, is_due};
use crate::lines::{do_lines, tick_of};
use crate::order::StartOrder;
use out_of_memory::OutOfMemory;
use script::{Script, ScriptLine};
use std::alloc::Global;
use vm_state::{DecodedImage, EventBuffer, MachineState, Release};
use vm_stretch::{Due, DueHeap};

/// What comes when: the slots of due ticks, and how many lines of the script are done. Once made,
/// it takes no memory.
#[derive(Drop)]
pub struct Timers {
    pub(crate) order: StartOrder,
    /// By process the tick of its next release, then that of its time-out, then that of the line
    /// that comes next.
    pub(crate) slots: DueHeap,
    pub(crate) done: usize,
}

/// The tick of the line that comes next.
fn next_line(lines: &[ScriptLine], done: usize) -> Option<u64>
    ensures { result ≡ first_tick (drop done (lines_of lines.now)) }
{
    if done < lines.len() {
        Some(tick_of(&lines[done]))
    } else {
        None
    }
}

/// The slots before the first tick.
fn first_slots(
    alloc: Global,
    plan: &DecodedImage,
    lines: &[ScriptLine],
) -> Result<DueHeap, OutOfMemory>
    ghost image: { Image }
    requires { IsOf image plan.now }
    ensures { IfOk result (λ slots. AreFirst image (lines_of lines.now) slots) }
{
    let count = plan.processes.len();
    let mut slots = DueHeap::new(alloc, 2 * count + 1)?;
    for place in 0..count {
        let Release::Periodic { first, .. } = plan.processes[place].release else {
            continue;
        };
        slots.set(place, Some(first));
    }
    slots.set(2 * count, next_line(lines, 0));
    Ok(slots)
}

impl Timers {
    /// What comes when before the first tick: no line is done, and all processes are idle. It
    /// takes all the memory that it needs; an error says that memory is short.
    pub fn new(alloc: Global, plan: &DecodedImage, script: &Script) -> Result<Timers, OutOfMemory>
        ghost image: { Image }
        requires plan { IsOf image plan.now }
        requires ranks { HasOwnRanks image }
        requires lines { AreInOrder (lines_of script.now.lines) }
        ensures order { IfOk result (λ agenda. IsOrderOf image agenda.order) }
        ensures done { IfOk result (λ agenda. agenda.done ≡ 0) }
        ensures due { IfOk result (λ agenda.
            HasDue image (script_of script.now) 0 0 (at_start image) agenda.slots) }
    {
        let order = StartOrder::new(alloc, plan)?;
        let slots = first_slots(alloc, plan, script.lines().as_slice())?;
        Ok(Timers {
            order,
            slots,
            done: 0,
        })
    }

    /// Notes when the wait of a process times out, as it begins to wait, or that it waits no more.
    pub fn set_time_out(&mut self, plan: &DecodedImage, place: usize, due: Option<u64>)
        ghost image: { Image }
        requires plan { IsOf image plan.now }
        requires place { place < length image.processes }
        requires slots { length self.old.slots ≡ 2 * length image.processes + 1 }
        ensures slots { self.new.slots ≡ slice_set self.old.slots
            (length image.processes + place) due }
        ensures order { self.new.order ≡ self.old.order }
        ensures done { self.new.done ≡ self.old.done }
    {
        self.slots.set(plan.processes.len() + place, due);
    }

    /// The tick at which the next thing is due; `None` exactly where nothing is.
    #[inline(always)]
    pub fn next_due(&self) -> Option<u64>
        ensures { result ≡ least self.now.slots }
    {
        self.slots.next()
    }

    /// Whether something is due at the tick, before which nothing is.
    #[inline(always)]
    fn is_due(&self, tick: u64) -> bool
        ensures { result ≡ false → least self.now.slots ≢ Some tick }
    {
        self.slots.next() == Some(tick)
    }

    /// Does the lines of the tick, if one is due, and notes when the next one is.
    #[inline(always)]
    fn begin_lines(
        &mut self,
        plan: &DecodedImage,
        script: &Script,
        board: &mut MachineState,
        fired: &mut EventBuffer,
        tick: u64,
    )
        ghost image: { Image }
        requires plan { IsOf image plan.now }
        requires order { IsOrderOf image self.old.order }
        requires board { IsBoardOf image board.old }
        requires due { HasDue image (script_of script.now) tick self.old.done
            (state_of board.old) self.old.slots }
        requires within { self.old.done ≤ length script.now.lines }
        requires calm { (lines image tick (lines_of script.now.lines) (state_of board.old)).overrun ≡
            false }
        requires room { array_vec_len fired.old +
            length (lines image tick (lines_of script.now.lines) (state_of board.old)).events ≤ 64 }
        ensures started { HasStarted (lines image tick (lines_of script.now.lines))
            (state_of board.old) fired.old.items (state_of board.new) fired.new.items }
        ensures board { IsBoardOf image board.new }
        ensures done { AreDone tick self.new.done (lines_of script.now.lines) }
        ensures within { self.new.done ≤ length script.now.lines }
        ensures slots { self.new.slots ≡ slice_set self.old.slots (2 * length image.processes)
            (first_tick (drop self.new.done (lines_of script.now.lines))) }
        ensures order { self.new.order ≡ self.old.order }
    {
        let line_slot = 2 * plan.processes.len();
        if is_due(&self.slots, line_slot, tick) {
            let lines = script.lines().as_slice();
            do_lines(plan, &self.order, lines, &mut self.done, board, fired, tick);
            self.slots.set(line_slot, next_line(lines, self.done));
        }
    }

    /// Begins a tick: does its lines, its periodic releases and its time-outs.
    #[inline(always)]
    pub fn begin(
        &mut self,
        plan: &DecodedImage,
        script: &Script,
        board: &mut MachineState,
        fired: &mut EventBuffer,
        tick: u64,
    )
        ghost image: { Image }
        requires plan { IsOf image plan.now }
        requires order { IsOrderOf image self.old.order }
        requires board { IsBoardOf image board.old }
        requires due { HasDue image (script_of script.now) tick self.old.done
            (state_of board.old) self.old.slots }
        requires within { self.old.done ≤ length script.now.lines }
        requires queues { HaveQueues (state_of board.old) }
        requires fits { NextFits image tick }
        requires calm { (starts image (script_of script.now) tick (state_of board.old)).overrun ≡
            false }
        requires fired { fired.old.items ≡ [] }
        ensures state { state_of board.new ≡
            (starts image (script_of script.now) tick (state_of board.old)).state }
        ensures events { fired.new.items ≡
            (starts image (script_of script.now) tick (state_of board.old)).events }
        ensures slots { HasSlots image (script_of script.now) tick self.new.done
            (state_of board.new) self.new.slots }
        ensures within { self.new.done ≤ length script.now.lines }
        ensures lines { AreDone tick self.new.done (lines_of script.now.lines) }
        ensures order { IsOrderOf image self.new.order }
        ensures board { IsBoardOf image board.new }
        ensures queues { HaveQueues (state_of board.new) }
    {
        if !self.is_due(tick) {
            return;
        }
        self.begin_lines(plan, script, board, fired, tick);
        if !self.is_due(tick) {
            return;
        }
        do_releases(plan, &mut self.slots, board, fired, tick);
        if self.is_due(tick) {
            do_time_outs(plan, &self.order, &mut self.slots, board, fired, tick);
        }
    }
}
