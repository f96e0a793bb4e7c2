//! Law: what is built is valid, and can be run and stored.
//!
//! `valid_image_law_of_checked`: every image made of a checked program, with the declared costs,
//! ranks and bounds, is valid. `image_of_program`: the image that is built is so made.
//! `runnable_image`: its numbers are in range, it has a plan and names, and its counts fit their
//! fields.
//!
//! The operands of a well-formed program's code are in range, which is the last of the seven parts
//! of validity (`operands_of_text`, `operands_of_image`). `instruction_properties`: what a test
//! says of each instruction that a text gives, it says of each instruction of its code.
//! `variable_areas`: variables lie in their areas of the image. Nothing here can run.
#![tactic(auto)]

pub mod image_of_program;
pub mod instruction_properties;
pub mod operands_of_image;
pub mod operands_of_text;
pub mod runnable_image;
pub mod valid_image_law_of_checked;
pub mod variable_areas;
