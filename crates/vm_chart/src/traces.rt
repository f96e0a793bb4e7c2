//! What is kept of all processes while their run is drawn.

ghost use Rattle.std.specs.Prelude.{◌≡◌, ◌≤◌, ◌<◌, ◌+◌, ◌-◌, ◌++◌, ◌^◌, [], ◌∷◌, All, IfOk, List, OnOk, Some, length, slice_get};
ghost use Rattle.base.specs.declared.event.Event.{Event as Fell};
ghost use Rattle.run_chart.specs.Columns.{end_of};
ghost use Rattle.run_chart.specs.Traces.{Counts};
ghost use Rattle.vm_chart.specs.Follows.{AreColumns, Drawing, Each, IsBeforeLastTick, IsDrawnTo, IsFresh, Passing, begins, events_before};
ghost use Rattle.vm_runner.specs.Standing.{events_between};
ghost use Rattle.vm_state.specs.Board.{IsBoardOf, state_of};
ghost use Rattle.vm_state.specs.Plan.{IsOf};
ghost use Rattle.vm_stretch.specs.RowLaws.{begun};

use crate::letters::letter_on;
use base::Event;
use out_of_memory::OutOfMemory;
use run_chart::Trace;
use std::alloc::Global;
use vm_state::{DecodedImage, MachineState};
use vm_turn::choose;

/// What is kept of so many processes before the first tick; an error says that memory is short.
pub(crate) fn traces_of(alloc: Global, processes: usize) -> Result<Vec<Trace>, OutOfMemory>
    ensures count { IfOk result (λ traces. length traces.items ≡ processes) }
    ensures fresh { IfOk result (λ traces. All IsFresh traces.items) }
{
    let mut traces = Vec::with_capacity(alloc, processes)?;
    while traces.len() < processes {
        traces.push(Trace::new(alloc))?;
    }
    Ok(traces)
}

/// Counts the end and measures the response of a process, if the event is one of its own.
fn note_if(trace: &mut Trace, process: usize, first: u64, event: &Event)
    ghost before: { List Fell }
    requires counts { Counts process first before trace.old }
    requires few { length before < 2 ^ 63 }
    requires timely { IsBeforeLastTick event.now }
    ensures counts { Counts process first (before ++ event.now ∷ []) trace.new }
    ensures row { trace.new.row ≡ trace.old.row }
    ensures letter { trace.new.letter ≡ trace.old.letter }
{
    if event.proc as usize != process {
        return;
    }
    trace.note(first, event);
}

/// As `note_if`, of one of the events.
fn note_at(trace: &mut Trace, process: usize, first: u64, events: &[Event], at: usize)
    ghost before: { List Fell }
    requires counts { Counts process first before trace.old }
    requires few { length before < 2 ^ 63 }
    requires at { at < length events.now }
    requires timely { All IsBeforeLastTick events.now }
    ensures counts { (event : Fell) → slice_get events.now at ≡ Some event →
        Counts process first (before ++ event ∷ []) trace.new }
    ensures row { trace.new.row ≡ trace.old.row }
    ensures letter { trace.new.letter ≡ trace.old.letter }
{
    note_if(trace, process, first, &events[at]);
}

/// Counts the ends and measures the responses of a process, of those of the events that are its.
fn note_of(trace: &mut Trace, process: usize, first: u64, events: &[Event])
    ghost before: { List Fell }
    requires counts { Counts process first before trace.old }
    requires few { length before + length events.now < 2 ^ 63 }
    requires timely { All IsBeforeLastTick events.now }
    ensures counts { Counts process first (before ++ events.now) trace.new }
    ensures row { trace.new.row ≡ trace.old.row }
    ensures letter { trace.new.letter ≡ trace.old.letter }
{
    for at in 0..events.len() {
        note_at(trace, process, first, events, at);
    }
}

/// Counts and measures those of all processes. The events are those from tick `from` up to before
/// tick `to`.
pub(crate) fn note_all(traces: &mut Vec<Trace>, first: u64, events: &[Event], from: u64, to: u64)
    ghost passing: { Passing }
    requires first { first ≡ passing.drawing.columns.first }
    requires events { events.now ≡ events_between passing.drawing.image passing.drawing.script from to }
    requires later { from ≤ to }
    requires few { length (events_before passing.drawing.image passing.drawing.script to) < 2 ^ 63 }
    requires timely { All IsBeforeLastTick events.now }
    requires each { Each (IsDrawnTo passing.drawing to from) traces.old.items }
    requires begin { from ≡ passing.from }
    ensures each { Each (IsDrawnTo passing.drawing to to) traces.new.items }
    ensures count { length traces.new.items ≡ length traces.old.items }
{
    for process in 0..traces.len() {
        note_of(&mut traces[process], process, first, events);
    }
}

/// Sees the letters of all processes in a tick whose start events are done.
pub(crate) fn see_all(traces: &mut Vec<Trace>, plan: &DecodedImage, board: &MachineState, tick: u64)
    ghost drawing: { Drawing }
    requires plan { IsOf drawing.image plan.now }
    requires board { IsBoardOf drawing.image board.now }
    requires state { state_of board.now ≡ begun drawing.image drawing.script tick }
    requires began { begins drawing ≤ tick }
    requires count { length traces.old.items ≡ length drawing.image.processes }
    requires each { Each (IsDrawnTo drawing tick tick) traces.old.items }
    ensures each { Each (IsDrawnTo drawing (tick + 1) tick) traces.new.items }
    ensures count { length traces.new.items ≡ length traces.old.items }
{
    let picked = choose(plan, board);
    for process in 0..traces.len() {
        let letter = letter_on(board, picked, process);
        traces[process].see(letter);
    }
}

/// The column is over for all processes; an error says that memory is short.
pub(crate) fn end_all(traces: &mut Vec<Trace>) -> Result<(), OutOfMemory>
    ghost drawing: { Drawing }
    requires columns { AreColumns drawing.columns }
    requires column { drawing.column < drawing.columns.count }
    requires each { Each (IsDrawnTo drawing (end_of drawing.columns drawing.column)
        (end_of drawing.columns drawing.column)) traces.old.items }
    ensures each { OnOk result (Each (IsDrawnTo (record drawing { column = drawing.column + 1 })
        (end_of drawing.columns drawing.column)
        (end_of drawing.columns drawing.column)) traces.new.items) }
    ensures count { OnOk result (length traces.new.items ≡ length traces.old.items) }
{
    for process in 0..traces.len() {
        traces[process].end_column()?;
    }
    Ok(())
}
