//! What names are looked up in, and what a name of a routine stands for.

ghost use Rattle.std.specs.Prelude.{◌≡◌, bytes_eq};

use crate::conditions::NumberedConditions;
use static_declarations::Declarations;
use std::alloc::Global;
use syntax_tree::{Name, Process, Routine};

/// Whose text a call is in.
#[derive(Clone, Copy, Debug)]
pub enum RoutineHome {
    Program,
    Process,
    Monitor(usize),
}

/// A program, with its conditions by number, and the process that runs.
#[derive(Drop)]
pub struct EvalContext<'a> {
    pub declarations: &'a Declarations<'a>,
    pub conditions: &'a NumberedConditions<'a>,
    pub process: &'a Process,
    pub alloc: Global,
    ghost numbered: { conditions.now ≡ declarations.now },
}

/// A routine with the home that its text has.
#[derive(Drop)]
pub struct ResolvedRoutine<'a> {
    pub home: RoutineHome,
    pub routine: &'a Routine,
}

/// Whether two names are the same.
pub fn equal(a: &Name, b: &Name) -> bool
    ensures { result ≡ bytes_eq a.now b.now }
{
    a == b
}
