//! The machine over whole runs.

ghost use Rattle.std.specs.Prelude.{◌≡◌, ◌≢◌, ◌≤◌, ◌<◌, ◌+◌, ◌↔◌, ◌++◌, [], Some, false, true};
ghost use Rattle.arrayvec.specs.ArrayVec.{array_vec_len};
ghost use Rattle.vm_stretch.specs.Due.{least};
ghost use Rattle.vm_stretch.specs.StretchDue.{NoneBefore};
ghost use Rattle.machine_semantics.specs.Image.{Image};
ghost use Rattle.vm_releases.specs.Begin.{script_of};
ghost use Rattle.vm_state.specs.Plan.{IsOf};
ghost use Rattle.vm_runner.specs.Course.{AreTold, course, events_between, started};
ghost use Rattle.vm_runner.specs.Dispatching.{Before, Between};
ghost use Rattle.vm_runner.specs.Setup.{IsSetUp};
ghost use Rattle.vm_runner.specs.Standing.{Begins, HasChosen, Stands};
ghost use Rattle.vm_runner.specs.Turn.{Run};
ghost use Rattle.vm_runner.specs.Waits.{IsAsBefore};

use crate::span::span;
use crate::turn::{Reach, take_ticks};
use crate::waits::is_some_at_queue;
use crate::{Dispatch, Setup};
use base::Event;
use script::Script;
use vm_releases::Timers;
use vm_state::{ControlBlock, DecodedImage, EventBuffer, MOST, MachineState, SchedulingState};

/// What a call of `advance` or `advance_row` came to.
#[derive(Clone, Copy)]
pub enum Progress {
    /// Ticks passed, in which events fell.
    Events,
    /// Ticks passed, in which none fell.
    Quiet,
    /// The run was at its end.
    Done,
}

/// The simulated machine. Once made, it takes no memory.
#[derive(Drop)]
pub struct Machine<D> {
    pub(crate) tick: u64,
    pub(crate) board: MachineState,
    pub(crate) agenda: Timers,
    pub(crate) fired: EventBuffer,
    /// By what it is chosen who runs.
    pub(crate) dispatch: D,
}

/// Whether a process is ready, inside the same monitor or none, and no other may stand anew by the
/// events.
#[inline(always)]
fn is_as_before(cell: &ControlBlock, inside: Option<u16>, events: &[Event]) -> bool
    ensures { result ≡ true → IsAsBefore cell.now inside events.now }
{
    let SchedulingState::Ready = cell.stand else {
        return false;
    };
    cell.job.inside == inside && !is_some_at_queue(events)
}

impl<D: Dispatch> Machine<D> {
    /// A machine before tick 0 of the run.
    pub fn new(setup: Setup, dispatch: D) -> Machine<D>
        ghost run: { Run }
        requires runnable { D.CanRun run.image run.script }
        requires setup { IsSetUp run.image run.script setup }
        requires knows { D.Knows run.image run.script (Before 0) dispatch }
        ensures start { result.tick ≡ 0 }
        ensures stands { Stands D.behaviour D.Knows run.image run.script Before result }
    {
        D::goes_by_steps();
        Machine {
            tick: 0,
            board: setup.board,
            agenda: setup.agenda,
            fired: EventBuffer::new(),
            dispatch,
        }
    }

    /// The start events of the tick, before the script's end. The turn is begun; up to its end the
    /// board has the state after the start events, and the machine their events.
    #[inline(always)]
    pub fn begin_turn(&mut self, plan: &DecodedImage, script: &Script)
        ghost run: { Run }
        requires plan { IsOf run.image plan.now }
        requires script { run.script ≡ script_of script.now }
        requires runnable { D.CanRun run.image run.script }
        requires stands { Stands D.behaviour D.Knows run.image run.script Before self.old }
        requires before { self.old.tick < script.now.end }
        ensures begun { Begins D.behaviour D.Knows run.image run.script self.new }
        ensures tick { self.new.tick ≡ self.old.tick }
    {
        D::goes_by_steps();
        self.fired.clear();
        self.dispatch.before_starts(&self.board);
        self.agenda
            .begin(plan, script, &mut self.board, &mut self.fired, self.tick);
        self.dispatch.after_starts(&self.board, self.tick);
    }

    /// A row of the process that is chosen, so many ticks at most: whether it goes on as it stood,
    /// before those are over, and with room for one more event. If not, the dispatch knows how all
    /// stand after the row.
    #[inline(always)]
    fn row_of(&mut self, plan: &DecodedImage, who: usize, most: u64) -> bool
        ghost run: { Run }
        requires plan { IsOf run.image plan.now }
        requires runnable { D.CanRun run.image run.script }
        requires chosen { HasChosen D.behaviour D.Knows run.image run.script who self.old }
        requires some { 1 ≤ most }
        requires end { self.old.tick + most ≤ run.script.end_tick }
        requires clear { NoneBefore (self.old.tick + most) self.old.agenda.slots }
        ensures within { self.new.tick ≤ self.old.tick + most }
        ensures passed { self.old.tick < self.new.tick }
        ensures goes_on { result ≡ true → HasChosen D.behaviour D.Knows run.image run.script who
            self.new }
        ensures before { result ≡ true → self.new.tick < self.old.tick + most }
        ensures clear { result ≡ true →
            NoneBefore (self.old.tick + most) self.new.agenda.slots }
        ensures none { result ≡ true →
            started (course D.behaviour run.image run.script) self.new.tick ≡ [] }
        ensures stands { result ≡ false →
            Stands D.behaviour D.Knows run.image run.script Between self.new }
        ensures events { AreTold (course D.behaviour run.image run.script) self.old.tick
            self.new.tick self.old.fired.items self.new.fired.items }
    {
        D::goes_by_steps();
        let before = self.fired.len();
        let inside = self.board.cells[who].job.inside;
        let ticks = take_ticks(
            plan,
            &mut self.board,
            &mut self.agenda,
            &mut self.fired,
            who,
            self.tick,
            most,
            Reach::Row,
        );
        self.tick += ticks;
        let events = &self.fired.as_slice()[before..];
        if ticks < most && self.fired.len() < MOST {
            if is_as_before(&self.board.cells[who], inside, events) {
                return true;
            }
        }
        self.dispatch.follow(plan, &self.board, who, events);
        false
    }

    /// Rows of the process that is chosen, so many ticks at most, while it goes on as it stood and
    /// there is room for one more event.
    #[inline(always)]
    fn rows_of(&mut self, plan: &DecodedImage, who: usize, most: u64)
        ghost run: { Run }
        requires plan { IsOf run.image plan.now }
        requires runnable { D.CanRun run.image run.script }
        requires chosen { HasChosen D.behaviour D.Knows run.image run.script who self.old }
        requires some { 1 ≤ most }
        requires end { self.old.tick + most ≤ run.script.end_tick }
        requires clear { NoneBefore (self.old.tick + most) self.old.agenda.slots }
        ensures within { self.new.tick ≤ self.old.tick + most }
        ensures passed { self.old.tick < self.new.tick }
        ensures stands { Stands D.behaviour D.Knows run.image run.script Between self.new }
        ensures events { AreTold (course D.behaviour run.image run.script) self.old.tick
            self.new.tick self.old.fired.items self.new.fired.items }
    {
        D::goes_by_steps();
        let limit = self.tick + most;
        let mut goes_on = true;
        while goes_on {
            goes_on = self.row_of(plan, who, limit - self.tick);
        }
    }

    /// The start events of the tick and rows, up to the limit at most.
    #[inline(always)]
    fn step(&mut self, plan: &DecodedImage, script: &Script, limit: u64)
        ghost run: { Run }
        requires plan { IsOf run.image plan.now }
        requires script { run.script ≡ script_of script.now }
        requires runnable { D.CanRun run.image run.script }
        requires stands { Stands D.behaviour D.Knows run.image run.script Before self.old }
        requires limit { limit ≤ script.now.end }
        requires before { self.old.tick < limit }
        ensures within { self.new.tick ≤ limit }
        ensures passed { self.old.tick < self.new.tick }
        ensures stands { Stands D.behaviour D.Knows run.image run.script Between self.new }
        ensures events { self.new.fired.items ≡
            events_between (course D.behaviour run.image run.script) self.old.tick self.new.tick }
    {
        D::goes_by_steps();
        self.begin_turn(plan, script);
        let most = span(&self.agenda, self.tick, limit);
        let Some(who) = self.dispatch.choose(plan, &self.board) else {
            self.tick += most;
            return;
        };
        self.rows_of(plan, who, most);
    }

    /// Whether nothing is due at the tick, which is below the limit, and there is room for one more
    /// event.
    #[inline(always)]
    fn goes_on(&self, limit: u64) -> bool
        ensures before { result ≡ true → self.now.tick < limit }
        ensures calm { result ≡ true → least self.now.agenda.slots ≢ Some self.now.tick }
        ensures room { result ≡ true → array_vec_len self.now.fired < 65 }
    {
        self.tick < limit && self.fired.len() < MOST && self.agenda.next_due() != Some(self.tick)
    }

    /// Rows of one process more, from a tick at which nothing is due, up to the limit at most: what
    /// falls in them stands after the events before.
    #[inline(always)]
    fn row_on(&mut self, plan: &DecodedImage, limit: u64)
        ghost run: { Run }
        requires plan { IsOf run.image plan.now }
        requires runnable { D.CanRun run.image run.script }
        requires stands { Stands D.behaviour D.Knows run.image run.script Between self.old }
        requires limit { limit ≤ run.script.end_tick }
        requires before { self.old.tick < limit }
        requires calm { least self.old.agenda.slots ≢ Some self.old.tick }
        requires room { array_vec_len self.old.fired < 65 }
        ensures within { self.new.tick ≤ limit }
        ensures passed { self.old.tick < self.new.tick }
        ensures stands { Stands D.behaviour D.Knows run.image run.script Between self.new }
        ensures events { self.new.fired.items ≡ self.old.fired.items ++
            events_between (course D.behaviour run.image run.script) self.old.tick self.new.tick }
    {
        D::goes_by_steps();
        let most = span(&self.agenda, self.tick, limit);
        let Some(who) = self.dispatch.first(plan, &self.board) else {
            self.tick += most;
            return;
        };
        self.rows_of(plan, who, most);
    }

    /// Rows, up to the limit at most, while nothing is due and there is room for one more event:
    /// what falls in them stands after the events before.
    #[inline(always)]
    fn rows_on(&mut self, plan: &DecodedImage, limit: u64)
        ghost run: { Run }
        requires plan { IsOf run.image plan.now }
        requires runnable { D.CanRun run.image run.script }
        requires stands { Stands D.behaviour D.Knows run.image run.script Between self.old }
        requires limit { limit ≤ run.script.end_tick }
        requires within { self.old.tick ≤ limit }
        ensures within { self.new.tick ≤ limit }
        ensures passed { self.old.tick ≤ self.new.tick }
        ensures stands { Stands D.behaviour D.Knows run.image run.script Before self.new }
        ensures events { self.new.fired.items ≡ self.old.fired.items ++
            events_between (course D.behaviour run.image run.script) self.old.tick self.new.tick }
    {
        D::goes_by_steps();
        while self.goes_on(limit) {
            self.row_on(plan, limit);
        }
    }

    /// The start events of the tick and a row, and then rows, up to the limit at most, while
    /// nothing is due and there is room for one more event. The limit is above the tick and no
    /// later than the end.
    pub fn advance_row_to(&mut self, plan: &DecodedImage, script: &Script, limit: u64)
        ghost run: { Run }
        requires plan { IsOf run.image plan.now }
        requires script { run.script ≡ script_of script.now }
        requires runnable { D.CanRun run.image run.script }
        requires stands { Stands D.behaviour D.Knows run.image run.script Before self.old }
        requires limit { limit ≤ script.now.end }
        requires before { self.old.tick < limit }
        ensures within { self.new.tick ≤ limit }
        ensures passed { self.old.tick < self.new.tick }
        ensures stands { Stands D.behaviour D.Knows run.image run.script Before self.new }
        ensures events { self.new.fired.items ≡
            events_between (course D.behaviour run.image run.script) self.old.tick self.new.tick }
    {
        D::goes_by_steps();
        self.step(plan, script, limit);
        self.rows_on(plan, limit);
    }

    /// What a call came to in which ticks passed.
    #[inline(always)]
    pub(crate) fn came_to(&self) -> Progress
        ensures passed { result ≢ Progress.Done }
        ensures quiet { result ≡ Progress.Quiet → self.now.fired.items ≡ [] }
        ensures events { result ≡ Progress.Events → self.now.fired.items ≢ [] }
    {
        if self.fired.is_empty() {
            Progress::Quiet
        } else {
            Progress::Events
        }
    }

    /// Turns at once: the processes that are chosen run on over instructions and events, up to the
    /// next tick at which something is due, or while there is room for another event.
    pub fn advance_row(&mut self, plan: &DecodedImage, script: &Script) -> Progress
        ghost image: { Image }
        requires plan { IsOf image plan.now }
        requires runnable { D.CanRun image (script_of script.now) }
        requires stands { Stands D.behaviour D.Knows image (script_of script.now) Before self.old }
        ensures done { (result ≡ Progress.Done) ↔ (self.old.tick ≡ script.now.end) }
        ensures stays { result ≡ Progress.Done → self.new ≡ self.old }
        ensures passed { result ≢ Progress.Done → self.old.tick < self.new.tick }
        ensures stands { Stands D.behaviour D.Knows image (script_of script.now) Before self.new }
        ensures fell { result ≢ Progress.Done → self.new.fired.items ≡ events_between
            (course D.behaviour image (script_of script.now)) self.old.tick self.new.tick }
        ensures quiet { result ≡ Progress.Quiet → self.new.fired.items ≡ [] }
        ensures events { result ≡ Progress.Events → self.new.fired.items ≢ [] }
    {
        let end = script.end();
        if self.tick >= end {
            return Progress::Done;
        }
        self.advance_row_to(plan, script, end);
        self.came_to()
    }

    /// Where all processes stand before the tick that comes next.
    pub fn board(&self) -> &MachineState
        ensures { result.now ≡ self.now.board }
    {
        &self.board
    }

    /// The events of the last call, in order.
    pub fn events(&self) -> &[Event]
        ensures { result.now ≡ self.now.fired.items }
    {
        self.fired.as_slice()
    }

    /// The tick that comes next.
    pub fn tick(&self) -> u64
        ensures { result ≡ self.now.tick }
    {
        self.tick
    }
}
