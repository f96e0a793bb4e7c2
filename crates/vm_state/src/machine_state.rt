//! Where all processes stand.

ghost use Rattle.std.specs.Prelude.{◌≡◌, IfOk, length, map, replicate};
ghost use Rattle.vm_state.specs.declared.threads.SchedulingState.TheVariants as stand;
ghost use Rattle.vm_state.specs.Threads.{rooms_of, threads_of};
ghost use Rattle.machine_semantics.specs.State.{Idle, zeros};
ghost use Rattle.vm_state.specs.Board.{Begins, rows_of};

use crate::decoded_image::{DecodedImage, DecodedProcess};
use crate::{ControlBlock, Queues, SchedulingState};
use out_of_memory::OutOfMemory;
use std::alloc::Global;
use vm_instructions::{Activation, Frames};

/// The state of the machine. Once made, it takes no memory.
#[derive(Drop)]
pub struct MachineState {
    /// By process where it stands, and the words that it keeps.
    pub cells: Vec<ControlBlock>,
    pub owned: Vec<Vec<i32>>,
    /// The words of all monitors.
    pub shared: Vec<i32>,
    /// By condition who waits on it.
    pub queues: Queues,
    /// By device what the script set last.
    pub devices: Vec<i32>,
}

/// An idle process with so many words of stack.
fn idle(alloc: Global, stack: usize) -> Result<ControlBlock, OutOfMemory>
    ensures idle { IfOk result (λ cell. cell.stand ≡ stand.Idle) }
    ensures room { IfOk result (λ cell. cell.job.frames.room ≡ stack) }
{
    Ok(ControlBlock {
        stand: SchedulingState::Idle,
        job: Activation {
            place: 0,
            done: 0,
            dispatch_ticks: 0,
            frames: Frames::new(alloc, stack)?,
            handling: false,
            inside: None,
        },
    })
}

/// The processes, all idle.
fn idle_cells(alloc: Global, processes: &[DecodedProcess]) -> Result<Vec<ControlBlock>, OutOfMemory>
    ensures idle { IfOk result (λ cells. threads_of cells.items ≡ map (λ p. Idle) processes.now) }
    ensures rooms { IfOk result (λ cells. rooms_of cells.items ≡ map (λ p. p.stack) processes.now) }
{
    let mut cells = Vec::with_capacity(alloc, processes.len())?;
    for process in processes {
        cells.push(idle(alloc, process.stack)?)?;
    }
    Ok(cells)
}

/// So many words that are 0.
#[tactic(auto, using(crate::proofs::Starting::zeros_are))]
fn zero_words(alloc: Global, words: usize) -> Result<Vec<i32>, OutOfMemory>
    ensures { IfOk result (λ row. row.items ≡ zeros words) }
{
    let row = vec![in alloc; 0; words]?;
    Ok(row)
}

/// By process its words, all 0.
fn zero_rows(alloc: Global, processes: &[DecodedProcess]) -> Result<Vec<Vec<i32>>, OutOfMemory>
    ensures { IfOk result (λ rows. rows_of rows.items ≡ map (λ p. zeros p.words) processes.now) }
{
    let mut rows = Vec::with_capacity(alloc, processes.len())?;
    for process in processes {
        rows.push(zero_words(alloc, process.words)?)?;
    }
    Ok(rows)
}

impl MachineState {
    /// All processes idle, all words 0, nobody waiting, no device set. It takes all the memory
    /// that the run needs; an error says that memory is short.
    pub fn new(alloc: Global, plan: &DecodedImage) -> Result<MachineState, OutOfMemory>
        ensures { IfOk result (λ board. Begins plan.now board) }
    {
        Ok(MachineState {
            cells: idle_cells(alloc, plan.processes.as_slice())?,
            owned: zero_rows(alloc, plan.processes.as_slice())?,
            shared: zero_words(alloc, plan.shared)?,
            queues: Queues::new(alloc, plan.conditions.len())?,
            devices: zero_words(alloc, plan.devices)?,
        })
    }
}
