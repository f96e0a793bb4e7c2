//! Laws: in a well-formed program whose names stand apart, each routine calls those with lower
//! numbers alone, and each text is sound as the measure of its code asks.
//!
//! `specs/Sound.antt` has the laws: levels of all routines and entries, their numbers, and
//! soundness of the whole program. Nothing here can run.
//!
//! The laws.

ghost use Rattle.codegen_law.specs.Sound.{RoutinesHaveNumbers, WellFormedProgramsAreSound};

/// Each routine and entry of such a program stands once in the list by number, behind all that it
/// calls.
pub fn routines_have_numbers()
    ensures { RoutinesHaveNumbers }
{}

/// Such a program is sound: its texts mean what they should, and call routines with lower numbers
/// alone.
pub fn well_formed_programs_are_sound()
    ensures { WellFormedProgramsAreSound }
{}
