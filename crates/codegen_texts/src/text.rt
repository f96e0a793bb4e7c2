//! Texts, each with its names.

ghost use Rattle.std.specs.Prelude.{◌<◌, ◌^◌};

use syntax_tree::{Process, Routine};

/// A routine or entry, the words of its parameters and variables, and the names that it sees.
#[derive(Drop)]
pub struct RoutineText<'a, N> {
    pub routine: &'a Routine,
    pub words: u128,
    pub names: N,
    ghost small: { words < 2 ^ 100 },
}

/// A process, and the names that its body and its handler see.
#[derive(Drop)]
pub struct ProcessText<'a, N> {
    pub process: &'a Process,
    pub names: N,
}
