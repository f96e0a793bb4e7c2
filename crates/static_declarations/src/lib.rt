//! What each used name is declared as; what constants are worth.
//!
//! `specs/Things.antt` lists what a program declares, each with its place, and says what the name
//! used at a place is declared as; `specs/Values.antt` says what a constant is worth. The static
//! rules stand on these two alone: none of them looks at a scope. Each call gives exactly what is
//! defined.
#![tactic(auto)]

mod declarations;
mod home;
mod sort;
mod thing;
mod things;
pub mod values;

pub use declarations::Declarations;
pub use home::{StmtContext, Where};
pub use sort::{Sort, VarType, sort_of};
pub use thing::Entity;
