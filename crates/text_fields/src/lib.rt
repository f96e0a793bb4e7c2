//! Fields of a line: words and decimal numbers.
//!
//! Scripts, logs and image texts are lines of fields. `specs/Fields.antt` says what a word is and
//! how words stand in a line, `specs/LineFields.antt` what the fields of a line are, and
//! `specs/Front.antt` what is kept while a line is read from left to right.
//!
//! `cut_at`, `unsigned` and `signed` read exactly the spellings that are printed: decimal, without
//! leading zeros, `-` only before a number that is not zero. A line in no form is refused at once,
//! a number out of range at the end of its line. Nothing here takes memory.
#![tactic(auto)]

mod cut;
mod fault;
pub mod fields_number;
mod line_cursor;
mod line_walk;
pub mod numbers;
pub mod refusal;

pub use cut::{Cut, cut_at, is_same, is_word};
pub use fault::{FieldError, FieldFault};
pub use fields_number::unsigned;
pub use line_cursor::LineCursor;
pub use line_walk::{begins_with, end_line, note, skip};
pub use numbers::{field, is_digit, is_numeral, numeral, short_field};
