//! What the choice knows of each process.

ghost use Rattle.std.specs.Prelude.{◌≡◌, ◌<◌, ◌^◌, List, IfOk, length, map};
ghost use Rattle.vm_state.specs.Threads.{thread_of};
ghost use Rattle.edf_semantics.specs.Choice.{Mark as Known};
ghost use Rattle.edf_semantics.specs.Run.{begin, mark_of, marks_of};
ghost use Rattle.machine_semantics.specs.Image.{Image, Process};
ghost use Rattle.machine_semantics.specs.State.{Thread};
ghost use Rattle.vm_state.specs.Board.{state_of};
ghost use Rattle.edf_machine.specs.Marks.{AreMarks, AreNoted, IsMark, first_kept, is_idle};

use out_of_memory::OutOfMemory;
use std::alloc::Global;
use vm_state::{ControlBlock, MachineState, SchedulingState};

/// What the choice knows of a process beside where it stands.
#[derive(Clone, Copy)]
pub(crate) struct DeadlineState {
    /// The ticks from a release to its deadline.
    pub deadline: u32,
    /// The tick of the deadline of the activation.
    pub due: u64,
    /// Whether the activation has had a tick.
    pub begun: bool,
    /// Whether the process was idle when that was noted last.
    pub idle: bool,
}

/// By process its mark before the first tick, of its deadline in ticks. An error says that memory
/// is short.
pub(crate) fn first_marks(
    alloc: Global,
    deadlines: &[u32],
) -> Result<Vec<DeadlineState>, OutOfMemory>
    ensures { IfOk result (λ marks. marks.items ≡ map first_kept deadlines.now) }
{
    let mut marks = Vec::with_capacity(alloc, deadlines.len())?;
    for deadline in deadlines {
        marks.push(DeadlineState {
            deadline: *deadline,
            due: u64::from(*deadline),
            begun: false,
            idle: true,
        })?;
    }
    Ok(marks)
}

/// Notes whether a process is idle.
fn note(mark: &mut DeadlineState, cell: &ControlBlock)
    ensures { mark.new ≡ record mark.old { idle = is_idle (thread_of cell.now) } }
{
    mark.idle = matches!(cell.stand, SchedulingState::Idle);
}

/// Notes which processes are idle, before the start events of a tick.
pub(crate) fn note_idle(board: &MachineState, marks: &mut Vec<DeadlineState>)
    requires { length board.now.cells.items ≡ length marks.old.items }
    ensures marks { (image : Image) (known : List Known) →
        AreMarks image marks.old.items known → AreMarks image marks.new.items known }
    ensures noted { AreNoted (state_of board.now).threads marks.new.items }
{
    for place in 0..board.cells.len() {
        note(&mut marks[place], &board.cells[place]);
    }
}

/// An activation is due so many ticks after its release.
fn release(mark: &mut DeadlineState, cell: &ControlBlock, tick: u64)
    requires { tick < 2 ^ 63 }
    ensures { (p : Process) (old : Thread) (m : Known) → IsMark p mark.old m →
        mark.old.idle ≡ is_idle old →
        IsMark p mark.new (mark_of tick old (thread_of cell.now) m) }
{
    if mark.idle && matches!(cell.stand, SchedulingState::Ready) {
        mark.due = tick + u64::from(mark.deadline);
        mark.begun = false;
    }
}

/// Marks the releases of a tick, after its start events.
pub(crate) fn mark_releases(board: &MachineState, marks: &mut Vec<DeadlineState>, tick: u64)
    requires cells { length board.now.cells.items ≡ length marks.old.items }
    requires tick { tick < 2 ^ 63 }
    ensures { (image : Image) (known : List Known) (before : List Thread) →
        AreMarks image marks.old.items known → AreNoted before marks.old.items →
        length before ≡ length image.processes → AreMarks image marks.new.items
        (marks_of tick before (state_of board.now).threads known) }
{
    for place in 0..board.cells.len() {
        release(&mut marks[place], &board.cells[place], tick);
    }
}

/// Marks that the activation of a process has had a tick.
pub(crate) fn mark_begun(marks: &mut Vec<DeadlineState>, place: usize)
    requires { place < length marks.old.items }
    ensures { (image : Image) (known : List Known) →
        AreMarks image marks.old.items known → AreMarks image marks.new.items (begin place known) }
{
    marks[place].begun = true;
}
