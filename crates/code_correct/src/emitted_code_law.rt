//! Law: of a program that keeps to its rules, the image that is its code has the code of each
//! process.
//!
//! `specs/Kept.antt` has the rules: names of routines differ, and each text keeps to the static
//! rules where its code stands. Promised: each routine and entry stands under its number with its
//! code.
//!
//! The law.

ghost use Rattle.code_correct.specs.Kept.{CodeIsEmitted};

/// The image that is the code of a program whose names differ has the code of each of its
/// processes.
pub fn code_is_emitted()
    ensures { CodeIsEmitted }
{}
