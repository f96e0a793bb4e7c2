//! Law: every checked program is well formed.
//!
//! Promised: what `static_semantics::rules` calls checked, `static_semantics` calls well formed. It
//! joins the laws of names, scopes, statements and calls with the rules for declarations.
//!
//! Rules for names give well-formed names and scopes, over the terms of `static_semantics`.
//! `names_found`: at each place stands one name at most, and each use has its declaration.
//! `scopes_mirrored`: what is in reach by the rules for names is what the meaning looks up.
//!
//! Rules for statements and calls give well-formed ones. `texts_well_formed`: where no rule for
//! names and statements fails, the statements and results of each text fit as the meaning sees it.
//! `call_levels`: where no routine reaches itself, routines have levels (`specs/Levels.antt`).
//! Nothing here can run.
#![tactic(auto)]

mod call_levels;
mod names_found;
mod scopes_mirrored;
mod texts_well_formed;
mod wellformed_law;

pub use call_levels::{calls_have_levels, routines_have_levels};
pub use names_found::{names_are_found, names_stand_apart, trees_are_written};
pub use scopes_mirrored::{declarations_are_listed, texts_are_mirrored, things_are_known};
pub use texts_well_formed::{answers_fit, bodies_fit};
pub use wellformed_law::checked_programs_are_well_formed;
