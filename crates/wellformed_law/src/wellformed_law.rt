//! The law of the static rules. This function does nothing; its contract is the law.

ghost use Rattle.syntax_tree.specs.Placed.{Prog, plain};
ghost use Rattle.syntax_tree.specs.declared.place.Place.{Place};
ghost use Rattle.static_semantics.specs.Static.{IsChecked};
ghost use Rattle.static_semantics.specs.WellFormed.{IsWellFormed};

use crate::{
    answers_fit, bodies_fit, calls_have_levels, declarations_are_listed, names_are_found,
    names_stand_apart, routines_have_levels, texts_are_mirrored, things_are_known,
    trees_are_written,
};

/// A program that is read and keeps to the rules for names and to all static rules is well formed.
pub fn checked_programs_are_well_formed()
    ensures { (g : Prog Place) → IsChecked g → IsWellFormed (plain g) }
{
    names_stand_apart();
    trees_are_written();
    names_are_found();
    things_are_known();
    declarations_are_listed();
    texts_are_mirrored();
    answers_fit();
    bodies_fit();
    calls_have_levels();
    routines_have_levels();
}
