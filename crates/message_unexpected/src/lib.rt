//! The notes at a place where a text goes on with no word of the grammar.
//!
//! The family Messages (`message_text`): a text whose tokens stop beginning a program is told with
//! what may stand at that place (`message_expected`), with what is still open there, and with what
//! can be done.
//!
//! `specs/Parts.antt` says what is still open, and makes the note of it. `specs/Rows.antt` is the
//! table of what can be done, by the words at the place, and `specs/Foreign.antt` that of words of
//! other languages; `specs/Remarks.antt` says which remark is the first. `specs/Unexpected.antt`
//! puts all notes together.
//!
//! `add_unexpected_notes` puts exactly all of these notes, and `add_open_note` that of what is still
//! open. The only error is want of memory.
#![tactic(auto)]

mod applying;
mod foreign;
mod parts;
mod remarks;
mod rows;
mod sight;
mod tokens;
mod unexpected;

pub use parts::add_open_note;
pub use unexpected::add_unexpected_notes;
