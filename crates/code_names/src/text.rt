//! Routines and entries, each with whose it is.

use syntax_tree::Routine;

/// Whose a routine is: the program's, or that of a process or a monitor by its number.
#[derive(Clone, Copy, PartialEq, Eq, Hash)]
pub enum RoutineOwner {
    Program,
    Process(usize),
    Monitor(usize),
}

/// A routine, or an entry of a monitor.
#[derive(Clone, Copy)]
pub struct Body<'a> {
    pub owner: RoutineOwner,
    pub routine: &'a Routine,
}
