//! Laws: the numbers of routines, where no routine reaches itself.
//!
//! `specs/Numbered.antt` has the premise, that routines have levels above those of the routines
//! that they call, and what is promised of the list by number. Nothing here can run.
//!
//! The law.

ghost use Rattle.codegen_law.specs.Numbered.{RoutinesAreNumbered};

/// Where routines have levels, each stands once in the list by number, behind all that it calls.
pub fn routines_are_numbered()
    ensures { RoutinesAreNumbered }
{}
