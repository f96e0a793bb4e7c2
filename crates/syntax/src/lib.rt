//! Tokens, the lexer, and the grammar as a relation.
//!
//! `specs/Spellings.antt` says what bytes spell, and `specs/Tokens.antt` that a text is cut into
//! blanks, comments and tokens, each by longest match. `lex` gives exactly that list, or the place
//! and the cause of the first token that is none.
//!
//! `tree` of `specs/Grammar.antt` relates tokens and a tree, one case for each production, with at
//! most 64 levels of nesting. `specs/Opening.antt` says which lists of tokens begin a program, with
//! the levels that are open behind them.
#![tactic(auto)]

mod fault;
mod front;
mod lexer;
mod table;
mod token;
mod token_laws;

pub use fault::LexFault;
pub use lexer::lex;
pub use table::{keyword_at, keyword_spelling, sign_spelling};
pub use token::{Token, TokenKind, Tokens, keyword, sign};
pub use token_laws::{one_fault, one_list, tokens_in_order};
