//! What a person is told of a name that is wrong: of a fault of the rules for names, E20 to E23.
//!
//! The family Messages (`message_text`): the sentence says what the name is, or that it is declared
//! nowhere in reach; the notes show other declarations, such as the nearest name.
//!
//! `specs/Mentions.antt` lists each name of a program with what it does there, each declaration
//! with the places that it reaches; `specs/Reach.antt` says which of them a name means;
//! `specs/Told.antt` says it in words. `name_sentence` and `name_notes` make exactly those; the
//! only error is want of memory.
//!
//! Four laws (`laws`) tie this to the rules of `static_names`: there is a sentence wherever one of
//! the rules fails; of a closing name it tells the name that has to be repeated; what a name means
//! that is used, with no full stop before it, is what the rules say; and of a name that is declared
//! another declaration is found exactly where the rules say that it is taken.
#![tactic(auto)]

mod declarations;
mod errors;
mod expressions;
mod laws;
mod lookup;
mod mentions;
mod notes;
mod role;
mod sentences;
mod sight;
mod statements;
mod told;
mod words;

pub use laws::{
    closing_names_are_told, declarations_are_told, told_where_rules_fail, uses_are_told,
};
pub use told::{name_notes, name_sentence};
