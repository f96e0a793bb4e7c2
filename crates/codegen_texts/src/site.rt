//! Where a text stands.

ghost use Rattle.std.specs.Prelude.{◌≡◌};
ghost use Rattle.codegen_spec.specs.Told.{told_owner};
ghost use Rattle.code_names.specs.Texts.{owner_of};

use code_names::{Body, RoutineOwner};
use codegen_spec::Owner as ToldOwner;
use syntax_tree::Process;

/// A text: that of a routine or entry, or that of a process, its body and its handler.
#[derive(Clone, Copy)]
pub enum Site<'a> {
    Routine(Body<'a>),
    Process { number: usize, process: &'a Process },
}

/// The owner as the generator is told of it.
pub fn told(owner: RoutineOwner) -> ToldOwner
    ensures { result ≡ told_owner (owner_of owner) }
{
    match owner {
        RoutineOwner::Program => ToldOwner::Program,
        RoutineOwner::Process(number) => ToldOwner::Process { number },
        RoutineOwner::Monitor(number) => ToldOwner::Monitor { number },
    }
}
