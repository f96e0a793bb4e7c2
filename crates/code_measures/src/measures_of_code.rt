//! Laws: the code of a routine, or of a process, comes to what its tree in the text says. It is of
//! its segment tree, keeps to the rules of heights, and has the cost, the stay and the height that
//! `code_cost_spec` defines.
//!
//! `specs/Sound.antt` says which names of the text have to mean something, `specs/Measured.antt`
//! has the laws. Nothing here can run.
//!
//! The laws.

ghost use Rattle.code_measures.specs.Measured.{RoutinesAreMeasured, ProcessesAreMeasured};

/// The code of a routine is of its tree, keeps to the rules of heights, and comes to the cost, the
/// height and the stay that its text says.
pub fn routines_are_measured()
    ensures { RoutinesAreMeasured }
{}

/// So does the code of a process, with its handler.
pub fn processes_are_measured()
    ensures { ProcessesAreMeasured }
{}
