//! A turn of the process that runs, over the board.
//!
//! `choose` tells the process that is picked (`specs/Chosen.antt`). `pass` takes so many ticks at
//! once, no more than are `left` of what the process is at; `run_row` runs it over whole
//! instructions that nobody sees (`specs/Rows.antt`), and `end_row` does what the row halted at.
//! Board and events after each are those of the meaning; that the process of a run that is never
//! stuck can take its turn is the law `turn_can_pass`. Nothing takes memory.
#![tactic(auto)]

mod cell;
mod choice;
mod ending;
mod outcome;
mod own;
mod rows;
mod turn;
pub mod turn_law;
mod visible_steps;

pub use choice::{ceiling_of, choose, left};
pub use outcome::Outcome;
pub use rows::{end_row, run_row};
pub use turn::pass;
