//! Law: the code that the generator makes is that of the text.
//!
//! `specs/MadeRightFits.antt` has the premise: no number of the text is cut off, and no exit stands outside
//! a loop. Promised: what is made of statements is their code, whatever stands before and behind
//! it; it has as many instructions as the text says, and the segments beside it are those of the
//! text.
//!
//! The law of the generator's code. These functions do nothing; their contracts are the laws.

ghost use Rattle.codegen_law.specs.Right.{MadeHasItsLength, MadeHasItsSegments, MadeIsEmitted};

/// The code that is made of statements is that of the statements, at its address.
pub fn made_code_is_emitted()
    ensures { MadeIsEmitted }
{}

/// What is made of statements has as many instructions as the text says.
pub fn made_code_has_its_length()
    ensures { MadeHasItsLength }
{}

/// The segments beside it are those of the text.
pub fn made_segments_are_those_of_the_text()
    ensures { MadeHasItsSegments }
{}
