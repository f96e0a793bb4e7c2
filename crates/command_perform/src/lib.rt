//! Acts performed: stored, put, run.
//!
//! `specs/Performed.antt` says what has been done of an act when `perform` answers. The machine, by
//! the dispatch of the run, is made before anything is stored or put, so want of memory leaves all
//! as it was; the run itself takes no memory, and has no answer for a stuck instruction, an overrun
//! or a full stack: none ever comes.
#![tactic(auto)]

mod any_machine;
mod performing;
mod ready;

pub use performing::perform;
pub use ready::Ready;
