//! Law: an image that holds what the generator makes of a program is the code of the program.
//!
//! `specs/MadeWholeFits.antt` has the premise on numbers, all of the text: none is cut off, and the code is
//! at most 65,535 instructions long. That names mean what they should is `IsSound` of `code_measures::declared_images_valid`.
//! `codegen_spec/specs/Held.antt` says how an image holds what is made. Promised: such an image is the code of
//! the program, and what is made has as many instructions as the text says, also where they are too
//! many. An example meets the premises. Nothing here can run.
//!
//! The laws.

ghost use Rattle.codegen_law.specs.Whole.{MadeHasItsLength, MadeIsCode};

/// What is made of a program, put into an image, is the code of the program: routines and processes
/// with their segment trees.
pub fn made_programs_are_code()
    ensures { MadeIsCode }
{}

/// It has as many instructions as the text says, also where they are too many.
pub fn made_programs_have_their_length()
    ensures { MadeHasItsLength }
{}
