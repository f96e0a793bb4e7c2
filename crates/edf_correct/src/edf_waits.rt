//! Law: the plain tree of a program without a wait statement has none.
//!
//! `command_due` finds wait statements by their places; costs, code and meaning are defined over
//! the plain tree. `specs/Waits.antt` says that no part of it waits: bodies of routines, of
//! entries, of processes and of their routines, and handlers. Nothing here can run.
//!
//! The law.

ghost use Rattle.edf_correct.specs.Waits.{WaitlessTreesHaveNoWait};

/// No part of the plain tree of a program without a wait statement waits.
pub fn waitless_trees_have_no_wait()
    ensures { WaitlessTreesHaveNoWait }
{}
