//! The machine, over every image whose run it can take.
//!
//! `Machine` stands in the run of an image under a script (`specs/Standing.antt`): its board is the
//! state before its tick. Who runs is chosen by its dispatch (`Dispatch`), which says what the run
//! is (`specs/Course.antt`). `advance_row` runs on over instructions and events up to the next tick
//! at which something is due. The machine then stands in the run, and its events are those of the
//! ticks that passed.
//!
//! `Ranking` is the dispatch by ranks, the meaning of an image; it keeps by what each process is
//! chosen from row to row (`specs/Ranking.antt`). By ranks `advance` takes one turn, up to
//! `IsTurnEnd` of `specs/Ends.antt`, and `follow` tells the instruction that it completed.
//!
//! `Machine::new` takes what `Setup` made of the plan that is the image's (`IsOf` of `vm_state`),
//! and asks that its dispatch can take the run: by ranks (`Machine::by_ranks`) it is runnable
//! (`specs/Runnable.antt`), which the runs of valid images are. Nothing else takes memory.
#![tactic(auto)]

mod advance;
mod completing;
mod dispatch;
mod machine;
mod ranking;
mod setup;
mod span;
mod turn;
mod waits;

pub use dispatch::Dispatch;
pub use machine::{Machine, Progress};
pub use ranking::Ranking;
pub use setup::Setup;
