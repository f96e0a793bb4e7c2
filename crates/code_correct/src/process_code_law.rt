//! Law: the code of each process of a well-formed program does, step by step, what the meaning of
//! programs says.
//!
//! `specs/Ruled.antt` has the premises beside well-formedness, that names stand apart, and the law;
//! `examples_law/specs/RuledExample.antt` a program with an image that meets them.
//!
//! The law, and an example that meets its premises.

ghost use Rattle.code_correct.specs.Ruled.{ProgramIsFaithful};

/// Of a well-formed program whose names stand apart, the image that is its code has faithful code
/// of each process.
pub fn program_code_is_faithful()
    ensures { ProgramIsFaithful }
{}
