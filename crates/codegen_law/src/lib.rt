//! Laws: what the generator makes is the code of the text, and fits; calls find what they name.
//!
//! `code_of_text`: the code and the segments that are made of a text are those of the relation of
//! `code_spec`. `code_of_program`: so is the code of a program, in an image that holds it.
//! `operands_fit`: no number of a well-formed program is cut off where it becomes an operand.
//!
//! Of a well-formed program whose names stand apart: each routine has its number once, behind all
//! that it calls (`routine_numbers`); each call finds a routine (`calls_found`); each text is sound
//! as the measure of code asks (`sound_texts`). `specs/Ruled.antt` has what the static rules give
//! by names. Nothing here can run.
#![tactic(auto)]

pub mod calls_found;
pub mod code_of_program;
mod code_of_text;
pub mod operands_fit;
pub mod routine_numbers;
pub mod sound_texts;

pub use code_of_text::{
    made_code_has_its_length, made_code_is_emitted, made_segments_are_those_of_the_text,
};
