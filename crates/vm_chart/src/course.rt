//! The run, drawn turn by turn.

ghost use Rattle.std.specs.Prelude.{◌≡◌, ◌≤◌, ◌<◌, ◌+◌, All, IfOk, OnOk, min};
ghost use Rattle.run_chart.specs.Columns.{end_of};
ghost use Rattle.machine_semantics.specs.Image.{Image};
ghost use Rattle.machine_semantics.specs.Run.{events};
ghost use Rattle.run_chart.specs.declared.columns.Columns.{Columns as Shown};
ghost use Rattle.vm_chart.specs.Follows.{AreColumns, Drawing, Follows, IsBeforeLastTick, begins};
ghost use Rattle.vm_releases.specs.Begin.{script_of};
ghost use Rattle.vm_runner.specs.Runnable.{IsRunnable};
ghost use Rattle.vm_state.specs.Plan.{IsOf};

use crate::traces::{end_all, note_all, see_all, traces_of};
use out_of_memory::OutOfMemory;
use run_chart::{Columns, Trace, end_of};
use script::Script;
use std::alloc::Global;
use vm_runner::{Machine, Ranking};
use vm_state::DecodedImage;

/// A run that is drawn: its machine, and by process what was seen of it.
#[derive(Drop)]
pub(crate) struct Course {
    pub machine: Machine<Ranking>,
    pub traces: Vec<Trace>,
}

impl Course {
    /// The run before tick 0; an error says that memory is short.
    pub(crate) fn new(
        alloc: Global,
        plan: &DecodedImage,
        script: &Script,
    ) -> Result<Course, OutOfMemory>
        ghost image: { Image }
        requires plan { IsOf image plan.now }
        requires runnable { IsRunnable image (script_of script.now) }
        ensures start { IfOk result (λ course. course.machine.tick ≡ 0) }
        ensures follows { IfOk result (λ course. (columns : Shown) → Follows (record {
          image = image;
          script = script_of script.now;
          columns = columns;
          column = 0;
        }) course) }
    {
        let machine = Machine::by_ranks(alloc, plan, script)?;
        let traces = traces_of(alloc, plan.processes.len())?;
        Ok(Course { machine, traces })
    }

    /// Rows, up to a tick at most, in which no letter is seen.
    fn row(&mut self, plan: &DecodedImage, script: &Script, first: u64, limit: u64)
        ghost drawing: { Drawing }
        requires plan { IsOf drawing.image plan.now }
        requires script { drawing.script ≡ script_of script.now }
        requires runnable { IsRunnable drawing.image drawing.script }
        requires timely { All IsBeforeLastTick (events drawing.image drawing.script) }
        requires first { first ≡ drawing.columns.first }
        requires follows { Follows drawing self.old }
        requires limit { limit ≤ script.now.end }
        requires short { limit ≤ 1000000000 }
        requires before { self.old.machine.tick < limit }
        requires unseen { limit ≤ begins drawing }
        ensures follows { Follows drawing self.new }
        ensures passed { self.old.machine.tick < self.new.machine.tick }
        ensures within { self.new.machine.tick ≤ limit }
    {
        let from = self.machine.tick();
        self.machine.advance_row_to(plan, script, limit);
        let to = self.machine.tick();
        note_all(&mut self.traces, first, self.machine.events(), from, to);
    }

    /// Runs by whole rows up to a tick, which is not below the machine's and no later than the end
    /// or than the first column.
    pub(crate) fn go_to(&mut self, plan: &DecodedImage, script: &Script, first: u64, tick: u64)
        ghost drawing: { Drawing }
        requires plan { IsOf drawing.image plan.now }
        requires script { drawing.script ≡ script_of script.now }
        requires runnable { IsRunnable drawing.image drawing.script }
        requires timely { All IsBeforeLastTick (events drawing.image drawing.script) }
        requires first { first ≡ drawing.columns.first }
        requires follows { Follows drawing self.old }
        requires limit { tick ≤ script.now.end }
        requires short { tick ≤ 1000000000 }
        requires later { self.old.machine.tick ≤ tick }
        requires unseen { tick ≤ begins drawing }
        ensures follows { Follows drawing self.new }
        ensures there { self.new.machine.tick ≡ tick }
    {
        while self.machine.tick() < tick {
            self.row(plan, script, first, tick);
        }
    }

    /// One turn, up to a tick at most, whose letters are seen.
    fn turn(&mut self, plan: &DecodedImage, script: &Script, first: u64, limit: u64)
        ghost drawing: { Drawing }
        requires plan { IsOf drawing.image plan.now }
        requires script { drawing.script ≡ script_of script.now }
        requires runnable { IsRunnable drawing.image drawing.script }
        requires timely { All IsBeforeLastTick (events drawing.image drawing.script) }
        requires first { first ≡ drawing.columns.first }
        requires follows { Follows drawing self.old }
        requires limit { limit ≤ script.now.end }
        requires short { limit ≤ 1000000000 }
        requires before { self.old.machine.tick < limit }
        requires began { begins drawing ≤ self.old.machine.tick }
        ensures follows { Follows drawing self.new }
        ensures passed { self.old.machine.tick < self.new.machine.tick }
        ensures within { self.new.machine.tick ≤ limit }
    {
        let from = self.machine.tick();
        self.machine.begin_turn(plan, script);
        see_all(&mut self.traces, plan, self.machine.board(), from);
        self.machine.end_turn(plan, limit);
        let to = self.machine.tick();
        note_all(&mut self.traces, first, self.machine.events(), from, to);
    }

    /// Draws a column, from its first tick on, up to the tick at which it ends; an error says that
    /// memory is short.
    fn draw_to(
        &mut self,
        plan: &DecodedImage,
        script: &Script,
        first: u64,
        end: u64,
    ) -> Result<(), OutOfMemory>
        ghost drawing: { Drawing }
        requires plan { IsOf drawing.image plan.now }
        requires script { drawing.script ≡ script_of script.now }
        requires runnable { IsRunnable drawing.image drawing.script }
        requires timely { All IsBeforeLastTick (events drawing.image drawing.script) }
        requires columns { AreColumns drawing.columns }
        requires column { drawing.column < drawing.columns.count }
        requires first { first ≡ drawing.columns.first }
        requires end { end ≡ end_of drawing.columns drawing.column }
        requires limit { drawing.columns.end ≤ script.now.end }
        requires follows { Follows drawing self.old }
        requires start { self.old.machine.tick ≡ begins drawing }
        ensures follows { OnOk result (Follows (record drawing { column = drawing.column + 1 })
            self.new) }
        ensures there { OnOk result (self.new.machine.tick ≡ end) }
    {
        while self.machine.tick() < end {
            self.turn(plan, script, first, end);
        }
        end_all(&mut self.traces)
    }

    /// Draws a column, from its first tick on; an error says that memory is short.
    fn draw_column(
        &mut self,
        plan: &DecodedImage,
        script: &Script,
        columns: &Columns,
        column: usize,
    ) -> Result<(), OutOfMemory>
        ghost drawing: { Drawing }
        requires plan { IsOf drawing.image plan.now }
        requires script { drawing.script ≡ script_of script.now }
        requires runnable { IsRunnable drawing.image drawing.script }
        requires timely { All IsBeforeLastTick (events drawing.image drawing.script) }
        requires are { AreColumns drawing.columns }
        requires some { drawing.column < drawing.columns.count }
        requires shown { columns.now ≡ drawing.columns }
        requires number { column ≡ drawing.column }
        requires limit { drawing.columns.end ≤ script.now.end }
        requires follows { Follows drawing self.old }
        requires start { self.old.machine.tick ≡ begins drawing }
        ensures follows { OnOk result (Follows (record drawing { column = drawing.column + 1 })
            self.new) }
        ensures there { OnOk result
            (self.new.machine.tick ≡ end_of drawing.columns drawing.column) }
    {
        let end = end_of(columns, column);
        self.draw_to(plan, script, columns.first, end)
    }

    /// Draws all columns, from their first tick on; an error says that memory is short.
    pub(crate) fn draw(
        &mut self,
        plan: &DecodedImage,
        script: &Script,
        columns: &Columns,
    ) -> Result<(), OutOfMemory>
        ghost image: { Image }
        requires plan { IsOf image plan.now }
        requires runnable { IsRunnable image (script_of script.now) }
        requires timely { All IsBeforeLastTick (events image (script_of script.now)) }
        requires columns { AreColumns columns.now }
        requires limit { columns.now.end ≤ script.now.end }
        requires follows { Follows (record {
          image = image;
          script = script_of script.now;
          columns = columns.now;
          column = 0;
        }) self.old }
        requires start { self.old.machine.tick ≡ min columns.now.first columns.now.end }
        ensures follows { OnOk result (Follows (record {
          image = image;
          script = script_of script.now;
          columns = columns.now;
          column = columns.now.count;
        }) self.new) }
        ensures there { OnOk result (self.new.machine.tick ≡ columns.now.end) }
    {
        for column in 0..columns.count {
            self.draw_column(plan, script, columns, column)?;
        }
        Ok(())
    }
}
