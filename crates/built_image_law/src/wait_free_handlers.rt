//! Law: no handler of a checked program reaches a wait, in the plain tree.
//!
//! `wait_free` says which routines reach no wait. Promised: of what `static_semantics::rules` calls
//! checked, the routines that reach no wait do not wait and call only one another, no handler
//! waits, and each calls only such routines. The lemmas walk through the placed tree beside the
//! plain one: what a call is by its place, it is by its name. Nothing here can run.
//!
//! The law. This function does nothing; its contract is the law.

ghost use Rattle.syntax_tree.specs.Placed.{Prog, plain};
ghost use Rattle.syntax_tree.specs.declared.place.Place.{Place};
ghost use Rattle.static_semantics.specs.Static.{IsChecked};
ghost use Rattle.code_measures.specs.Quiet.{AreQuiet};
ghost use Rattle.built_image_law.specs.Quiet.{reaches_no_wait};

use wellformed_law::{
    answers_fit, bodies_fit, calls_have_levels, declarations_are_listed, names_are_found,
    names_stand_apart, routines_have_levels, texts_are_mirrored, things_are_known,
    trees_are_written,
};

/// The routines of a checked program that reach no wait are quiet, and its handlers call only
/// those.
pub fn handlers_are_quiet()
    ensures { (g : Prog Place) → IsChecked g → AreQuiet (plain g) (reaches_no_wait (plain g)) }
{
    names_stand_apart();
    trees_are_written();
    names_are_found();
    things_are_known();
    declarations_are_listed();
    texts_are_mirrored();
    answers_fit();
    bodies_fit();
    calls_have_levels();
    routines_have_levels();
}
