//! Laws: code, and what is counted of a text, come to the cost, height and length that are defined.
//!
//! `measures_of_code`: the code of a routine or process is of its segment tree, and has the cost,
//! stay and height of `code_cost_spec`. `declared_images_valid`: an image that is the code of a
//! program, and declares what its tree says, keeps six of the seven parts of validity.
//! `specs/Declared.antt` says what an image declares.
//!
//! What is measured is what is defined, over `code_cost` and `code_cost_spec`. `cost_of_text`: the
//! measure of an expression and of statements is their defined cost, height and length
//! (`specs/MeasuredTexts.antt`). `cost_of_program`: so is the table of a whole program, as far as
//! it is counted (`specs/Defined.antt`). Nothing here can run.
#![tactic(auto)]

pub mod cost_of_program;
pub mod cost_of_text;
pub mod declared_images_valid;
pub mod measures_of_code;
