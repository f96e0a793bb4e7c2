//! Law: what the generator makes has operands of 32 bits.
//!
//! The generator cuts a number that is no signed number of 32 bits where it becomes an operand, so
//! each instruction that is made of a program has operands that are (`HasWords` of `machine_isa`),
//! whatever the program says. Nothing here can run.
//!
//! The law.

ghost use Rattle.replay_law.specs.MadeWords.{MadeCodeHasWords};

/// The operands of each instruction that is made of a program are signed numbers of 32 bits.
pub fn made_code_has_words()
    ensures { MadeCodeHasWords }
{}
