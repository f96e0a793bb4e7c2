//! What may stand where a text goes on with no word of the grammar.
//!
//! The family Messages (`message_text`): a text whose tokens stop beginning a program is told with
//! what may stand at that place. The other notes at the place are those of `message_unexpected`.
//!
//! `specs/Kinds.antt` has the kinds of words, and `specs/Expected.antt` says which of them are
//! expected behind a text: those with which it begins a program. `specs/Groups.antt` tells some of
//! them by one name, and `specs/Notes.antt` makes the note. `specs/Automaton.antt` is a recogniser
//! with a stack of what is still to come, in which a word does a turn: `specs/Leads.antt` says where
//! the words of a text lead it, and `specs/Stack.antt` how the code has it.
//!
//! `expected` finds exactly the kinds that are expected: the text is lexed once, the automaton goes
//! over its tokens once, without a tree and without recursion, and each kind is tried on the stack
//! that is left. `add_expected_note` puts exactly the note; the other calls are exactly the
//! definitions of these names. The only error is want of memory. Law, in `specs/Behind.antt`: which
//! words may follow a text, by its tokens.
#![tactic(auto)]

mod automaton;
mod finding;
mod groups;
mod kinds;
mod laws;
mod notes;
mod phrases;
mod statements;
mod symbols;
mod tokens;
mod turns;

pub use finding::expected;
pub use groups::{Group, members};
pub use kinds::{KEYWORDS, Kind, has, is_same, kind_of, of_token, spelling};
pub use laws::follows_by_tokens;
pub use notes::add_expected_note;
pub use tokens::{bytes_of, tokens_before};
