//! Law: the bounds of each loop of a checked program are numbers of 32 bits.
//!
//! `specs/Loops.antt` states it, over `LoopsFit` of `code_measures::cost_of_program`, which the law
//! of measures asks for: of every well-formed program, and with the static rules of every checked
//! one.
//!
//! Promised: no bound of a loop is cut off, in no routine, no body and no handler. Nothing here can
//! run.
//!
//! The laws. These functions do nothing; their contracts are the laws.

ghost use Rattle.compile.specs.Loops.{WellFormedLoopsFit, CheckedLoopsFit};

use wellformed_law::checked_programs_are_well_formed;

/// The bounds of each loop of a well-formed program are numbers of 32 bits.
pub fn loops_of_well_formed_programs_fit()
    ensures { WellFormedLoopsFit }
{}

/// So are those of a program that is read and keeps to all rules.
pub fn loops_of_checked_programs_fit()
    ensures { CheckedLoopsFit }
{
    checked_programs_are_well_formed();
    loops_of_well_formed_programs_fit();
}
