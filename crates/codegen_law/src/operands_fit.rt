//! Law: no number of a well-formed program is cut off where it becomes an operand.
//!
//! `specs/Fitting.antt` has the law and its premises: the code is at most 65,535 instructions long,
//! and no frame of a routine is longer than the greatest operand. The rest follows from the static
//! rules. An example meets the premises. Nothing here can run.
//!
//! The laws.

ghost use Rattle.codegen_law.specs.Fitting.{WellFormedProgramsFit};

/// Literals, constants, ranges, bounds, words, devices, conditions, monitors and routines of a
/// well-formed program: all are operands.
pub fn well_formed_programs_fit()
    ensures { WellFormedProgramsFit }
{}
