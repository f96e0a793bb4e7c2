//! The messages for a text that is no program, and for a program that may be out of time.
//!
//! The family Messages (`message_text`): a text that fails a rule is told with the rule's sentence,
//! the line and the word at the place, and what can be done.
//!
//! `specs/Word.antt` says which word stands at a place, `specs/Rules.antt` has the sentence and the
//! note of each rule, and `specs/Hints.antt` what is said of bytes that begin no word.
//! `specs/Program.antt` puts them together: with all notes where the grammar fails
//! (`message_expected`, `message_unexpected`); with the sentence and the notes that name what is
//! wrong where a rule for names does (`message_names`); and with the sentence that has numbers and
//! names where another static rule does (`message_rules`, `message_types`, `message_conduct`).
//!
//! Of a program without a bound for each process the first process without one is told, and which
//! calls tell more; of a program that earliest deadlines do not bring in time, the ticks that may be
//! needed (`specs/Late.antt`).
//!
//! `program_message`, `long_message`, `late_message` and `demand_message` make exactly these
//! messages; the only error is want of memory.
#![tactic(auto)]

mod demand;
mod grammar;
mod hint_rows;
mod late;
mod messages;
mod names;
mod notes;
mod place_words;
mod process;
mod rule_rows;
mod rules;
mod said;
mod sentences;
mod ticks;
mod told;

pub use demand::demand_message;
pub use late::late_message;
pub use messages::long_message;
pub use told::program_message;
