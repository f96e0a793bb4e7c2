//! Law of the generator: what it makes of a well-formed program that is not too large is the code
//! of the program.
//!
//! `specs/Generated.antt` has the law. Its premises are all of the text: the static rules, names
//! that stand apart, at most 65,535 instructions, and frames of routines that are no longer than
//! the greatest operand. An example meets them. Nothing here can run.
//!
//! The laws.

ghost use Rattle.built_image_law.specs.Generated.{GeneratedHasItsLength, GeneratedIsCode};

/// An image that holds what is made of such a program is the code of the program, with its segment
/// trees, words and tables.
pub fn what_is_generated_is_code()
    ensures { GeneratedIsCode }
{}

/// What is made of a program has as many instructions as its text says, also where they are too
/// many.
pub fn what_is_generated_has_its_length()
    ensures { GeneratedHasItsLength }
{}
