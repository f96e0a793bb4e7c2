//! The machine's meaning over many ticks at once; what is seen of it; who runs, and what is due.
//!
//! The family Virtual machine: the machine of `machine_semantics` in code, each part equal to the
//! part of the meaning that it does. `vm_stretch` has the meaning over many ticks at once, who runs
//! and what is due; `vm_state` what is kept, `vm_instructions`, `vm_turn` and `vm_releases` the
//! parts of a turn, `vm_runner` the machine, `vm_run` its log, `vm_watch` its state at a stop.
//!
//! `batched_ticks`: what many ticks come to at once, while nothing starts. `dispatch_law`: who is
//! picked stays so. `due_slots`: only what is due in its slot starts.
//!
//! `specs/View.antt` says how each process stands between two ticks, the words that it and each
//! monitor keep, and who is inside a monitor; `specs/Completed.antt` which instruction has its
//! effect in a tick. The types that code tells these by stand here.
//!
//! `specs/Pick.antt` says which of the ready processes is foremost: of the least active rank, one
//! inside a monitor before one outside, then of the least place. `specs/Due.antt` sees due ticks as
//! optional ticks by slot, with the least of them; `DueHeap` keeps the slots in a binary heap with
//! the place of each (`specs/Heap.antt`), and shows it. Nothing of these takes memory but `new`.
#![tactic(auto)]

pub mod batched_ticks;
mod choice;
mod completed;
pub mod dispatch_law;
mod due;
pub mod due_slots;
mod order;
mod view;

pub use choice::{Best, Contender, foremost_with, place_found};
pub use completed::Completed;
pub use due::Due;
pub use order::DueHeap;
pub use view::View;
