//! Who waits.

ghost use Rattle.std.specs.Prelude.{◌≡◌, ◌<◌, ◌++◌, ◌∷◌, [], IfOk, length, replicate, slice_set, vec_capacity};
ghost use Rattle.machine_semantics.specs.Starts.{queue_of, without};
ghost use Rattle.machine_semantics.specs.Tick.{first, rest};
ghost use Rattle.vm_state.specs.Queues.{HaveRoom, rows_of};

use out_of_memory::OutOfMemory;
use std::alloc::Global;
use std::marker::Model;

/// By condition the processes that wait on it, the first to come first. Once made, it takes no
/// memory.
#[derive(Drop)]
pub struct Queues {
    rows: Vec<Vec<u16>>,
}

impl Model for Queues {
    ghost use Rattle.std.specs.Prelude.{List, ℕ};

    ghost Value = { List (List ℕ) };

    ghost use Rattle.vm_state.specs.Queues.{HaveRoom, rows_of};

    ghost view = { λ s. rows_of s.rows.items };

    ghost invariant = { λ s. HaveRoom s.rows.items };
}

/// Takes the first of a row.
fn take(row: &mut Vec<u16>) -> Option<u16>
    ensures first { result ≡ first row.old.items }
    ensures rest { row.new.items ≡ rest row.old.items }
    ensures room { vec_capacity row.new ≡ vec_capacity row.old }
{
    if row.is_empty() {
        return None;
    }
    Some(row.remove(0))
}

/// Takes a process out of a row.
fn leave_row(row: &mut Vec<u16>, process: u16)
    ensures rest { row.new.items ≡ without process row.old.items }
    ensures room { vec_capacity row.new ≡ vec_capacity row.old }
{
    row.retain(|waiting| *waiting != process);
}

/// So many rows in which nobody stands, each with its room.
fn empty_rows(alloc: Global, conditions: usize) -> Result<Vec<Vec<u16>>, OutOfMemory>
    ensures empty { IfOk result (λ rows. rows_of rows.items ≡ replicate conditions []) }
    ensures room { IfOk result (λ rows. HaveRoom rows.items) }
{
    let mut rows = Vec::with_capacity(alloc, conditions)?;
    for _ in 0..conditions {
        rows.push(Vec::with_capacity(alloc, 64)?)?;
    }
    Ok(rows)
}

impl Queues {
    /// By condition a queue in which nobody stands. It takes all the memory that the queues need.
    pub fn new(alloc: Global, conditions: usize) -> Result<Queues, OutOfMemory>
        ensures { IfOk result (λ queues. queues ≡ replicate conditions []) }
    {
        let rows = empty_rows(alloc, conditions)?;
        Ok(Queues { rows })
    }

    /// Those who wait on the condition, the first to come first.
    pub fn waiting(&self, condition: usize) -> &[u16]
        requires { condition < length self.now }
        ensures { result.now ≡ queue_of self.now condition }
    {
        self.rows[condition].as_slice()
    }

    /// Takes all processes out of the queue.
    pub fn clear(&mut self, condition: usize)
        requires { condition < length self.old }
        ensures { self.new ≡ slice_set self.old condition [] }
    {
        let row = &mut self.rows[condition];
        row.clear();
    }

    /// Takes a process out of the queue, wherever it stands in it; the others stay in order.
    pub fn leave(&mut self, condition: usize, process: u16)
        requires { condition < length self.old }
        ensures { self.new ≡ slice_set self.old condition
            (without process (queue_of self.old condition)) }
    {
        leave_row(&mut self.rows[condition], process);
    }

    /// Takes the first process out of the queue.
    pub fn take_first(&mut self, condition: usize) -> Option<u16>
        requires { condition < length self.old }
        ensures first { result ≡ first (queue_of self.old condition) }
        ensures rest { self.new ≡ slice_set self.old condition
            (rest (queue_of self.old condition)) }
    {
        take(&mut self.rows[condition])
    }

    /// Puts a process at the end of the queue.
    pub fn join(&mut self, condition: usize, process: u16)
        requires there { condition < length self.old }
        requires room { length (queue_of self.old condition) < 64 }
        ensures { self.new ≡ slice_set self.old condition
            (queue_of self.old condition ++ process ∷ []) }
    {
        let row = &mut self.rows[condition];
        row.push_reserved(process);
    }
}
