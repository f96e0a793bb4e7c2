//! Parts of messages for a person.
//!
//! The family Messages: what a call that fails tells the one who made it. `message_text` has the
//! parts that all messages are made of, `message_words` the message for words that are no call.
//! Each message is a function of the words, of the bytes that were read and of the fault.
//!
//! Defined are how bytes from outside are put, a message's first line and its notes
//! (`specs/Words.antt`), a line of a text with carets below it (`specs/Shown.antt`), the end and
//! the words of a line (`specs/Lines.antt`), the distance of two words and the nearest of some
//! names (`specs/Nearest.antt`), and a choice (`specs/Either.antt`). Each call that puts something
//! puts exactly what is defined behind a text; the only error is want of memory, and then the text
//! may hold some of what was to be put.
#![tactic(auto)]

mod distances;
mod either;
mod lines;
mod near;
mod put;
mod show;
mod words;

pub use distances::distance;
pub use either::add_either;
pub use lines::{cut, has_return, is_ended, line, return_place};
pub use near::{add_hint, nearest};
pub use put::{add_number, add_parts, add_repeated};
pub use show::add_show;
pub use words::{add_head, add_note, add_plain, add_quoted};
