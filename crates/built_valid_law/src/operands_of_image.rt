//! Laws: the operands of the image of a well-formed program are in range, which is the last of the
//! seven parts of validity.
//!
//! `specs/InRange.antt` has the law: each instruction names words of its area, devices, conditions
//! and monitors that are its own, numbers within their limits, and routines that it may call.
//! Nothing here can run.
//!
//! The law.

ghost use Rattle.built_valid_law.specs.InRange.{OperandsAreInRange};

/// The image of a well-formed program whose names stand apart has no operand out of range.
pub fn operands_are_in_range()
    ensures { OperandsAreInRange }
{}
