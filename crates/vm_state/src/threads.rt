//! All processes: who is idle, ready or waiting.

ghost use Rattle.std.specs.Prelude.{◌≡◌, ◌<◌, ◌*◌, [], Some, length, vec_len, slice_set};
ghost use Rattle.machine_semantics.specs.Image.{Image};
ghost use Rattle.machine_semantics.specs.Starts.{queue_of};
ghost use Rattle.machine_semantics.specs.Tick.{first, rest, wake, wake_all, wake_first, woken};
ghost use Rattle.vm_state.specs.Threads.{AreBelow, rooms_of, thread_of, threads_of};

use crate::Queues;
use vm_instructions::Activation;

/// Whether a process is idle, ready, or waits on a condition until its time-out is due.
#[derive(Clone, Copy)]
pub enum SchedulingState {
    Idle,
    Ready,
    Waiting {
        condition: u16,
        due: u64,
        number: u16,
    },
}

/// A process, with its activation; that of an idle one says nothing.
#[derive(Drop)]
pub struct ControlBlock {
    pub stand: SchedulingState,
    pub job: Activation,
}

/// A process that was taken out of a queue is ready, with so many ticks to burn.
fn wake_cell(cell: &mut ControlBlock, dispatch_ticks: u32)
    ensures woken { (image : Image) → dispatch_ticks ≡ 2 * image.over → thread_of cell.new ≡
        woken image (Some (thread_of cell.old)) }
    ensures room { cell.new.job.frames.room ≡ cell.old.job.frames.room }
{
    if let SchedulingState::Waiting { .. } = cell.stand {
        cell.stand = SchedulingState::Ready;
        cell.job.dispatch_ticks = dispatch_ticks;
    }
}

/// The process at this place is taken out of a queue.
pub fn wake_at(cells: &mut Vec<ControlBlock>, place: usize, dispatch_ticks: u32)
    ghost image: { Image }
    requires place { place < vec_len cells.old }
    requires dispatch_ticks { dispatch_ticks ≡ 2 * image.over }
    ensures threads { threads_of cells.new.items ≡ wake image place (threads_of cells.old.items) }
    ensures rooms { rooms_of cells.new.items ≡ rooms_of cells.old.items }
    ensures len { vec_len cells.new ≡ vec_len cells.old }
{
    wake_cell(&mut cells[place], dispatch_ticks);
}

/// Takes the first process out of a queue.
pub fn signal(
    cells: &mut Vec<ControlBlock>,
    queues: &mut Queues,
    condition: usize,
    dispatch_ticks: u32,
) -> Option<u16>
    ghost image: { Image }
    requires condition { condition < length queues.old }
    requires below { AreBelow (vec_len cells.old) (queue_of queues.old condition) }
    requires dispatch_ticks { dispatch_ticks ≡ 2 * image.over }
    ensures woken { result ≡ first (queue_of queues.old condition) }
    ensures queues { queues.new ≡ slice_set queues.old condition
        (rest (queue_of queues.old condition)) }
    ensures threads { threads_of cells.new.items ≡
        wake_first image (first (queue_of queues.old condition)) (threads_of cells.old.items) }
    ensures rooms { rooms_of cells.new.items ≡ rooms_of cells.old.items }
    ensures len { vec_len cells.new ≡ vec_len cells.old }
{
    let woken = queues.take_first(condition);
    if let Some(place) = woken {
        wake_at(cells, usize::from(place), dispatch_ticks);
    }
    woken
}

/// Takes these processes out of a queue.
fn wake_each(cells: &mut Vec<ControlBlock>, waiting: &[u16], dispatch_ticks: u32)
    ghost image: { Image }
    requires below { AreBelow (vec_len cells.old) waiting.now }
    requires dispatch_ticks { dispatch_ticks ≡ 2 * image.over }
    ensures threads { threads_of cells.new.items ≡
        wake_all image waiting.now (threads_of cells.old.items) }
    ensures rooms { rooms_of cells.new.items ≡ rooms_of cells.old.items }
    ensures len { vec_len cells.new ≡ vec_len cells.old }
{
    for process in waiting {
        wake_at(cells, usize::from(*process), dispatch_ticks);
    }
}

/// Takes all processes out of a queue, and tells how many.
pub fn broadcast(
    cells: &mut Vec<ControlBlock>,
    queues: &mut Queues,
    condition: usize,
    dispatch_ticks: u32,
) -> u16
    ghost image: { Image }
    requires condition { condition < length queues.old }
    requires below { AreBelow (vec_len cells.old) (queue_of queues.old condition) }
    requires few { length (queue_of queues.old condition) < 64 }
    requires dispatch_ticks { dispatch_ticks ≡ 2 * image.over }
    ensures count { result ≡ length (queue_of queues.old condition) }
    ensures queues { queues.new ≡ slice_set queues.old condition [] }
    ensures threads { threads_of cells.new.items ≡
        wake_all image (queue_of queues.old condition) (threads_of cells.old.items) }
    ensures rooms { rooms_of cells.new.items ≡ rooms_of cells.old.items }
    ensures len { vec_len cells.new ≡ vec_len cells.old }
{
    let waiting = queues.waiting(condition);
    wake_each(cells, waiting, dispatch_ticks);
    let count = waiting.len() as u16;
    queues.clear(condition);
    count
}
