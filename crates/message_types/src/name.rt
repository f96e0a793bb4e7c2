//! The names of routines.

ghost use Rattle.std.specs.Prelude.{◌≡◌};
ghost use Rattle.syntax_tree.specs.Placed.{placed};
ghost use Rattle.message_conduct.specs.Told.{routine_name as name_of_routine};

use syntax_tree::{Place, Program};

/// The name of the first routine of a program whose name stands at the place, nothing where there
/// is none.
pub(crate) fn routine_name(program: &Program, place: Place) -> &[u8]
    ensures { result.now ≡ name_of_routine (placed program.now) place }
{
    message_conduct::routine_name(place, program.decls.as_slice())
}
