//! Law: tokens have one tree at most; which tokens begin a program.
//!
//! `specs/Reading.antt` is the grammar once more, as a function that reads; the lemmas show that it
//! and the relation of `syntax` agree, in both directions. `specs/Beginning.antt` says which tokens
//! begin a program, the limit on nesting left aside. Nothing here can run.
#![tactic(auto)]

mod reading;

pub use reading::{one_list, one_tree};
