//! Law: the names of a checked program stand apart.
//!
//! Promised: of what `static_semantics::rules` calls checked, the plain tree has names of routines and entries
//! that differ, a process has no routine with the name of one of the program's, and the program's
//! routines and the entries call routines of the program alone. The lemmas take the rules for
//! names, and what the rules give of texts that a process without routines would run. Nothing here
//! can run.
//!
//! The law. This function does nothing; its contract is the law.

ghost use Rattle.syntax_tree.specs.Placed.{Prog, plain};
ghost use Rattle.syntax_tree.specs.declared.place.Place.{Place};
ghost use Rattle.static_semantics.specs.Static.{IsChecked};
ghost use Rattle.codegen_law.specs.Ruled.{NamesApart};

use wellformed_law::{
    answers_fit, bodies_fit, calls_have_levels, declarations_are_listed, names_are_found,
    names_stand_apart, routines_have_levels, texts_are_mirrored, things_are_known,
    trees_are_written,
};

/// The names of a program that keeps to the rules for names and to all static rules stand apart.
pub fn names_are_apart()
    ensures { (g : Prog Place) → IsChecked g → NamesApart (plain g) }
{
    names_stand_apart();
    trees_are_written();
    names_are_found();
    things_are_known();
    declarations_are_listed();
    texts_are_mirrored();
    answers_fit();
    bodies_fit();
    calls_have_levels();
    routines_have_levels();
}
