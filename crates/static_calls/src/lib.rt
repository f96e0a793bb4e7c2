//! Rules for calls: no recursion, no wait in a handler; the call graph.
//!
//! `specs/Reaching.antt` says which routine reaches which by one call or more, which reaches itself
//! (E31), and which handler reaches a wait (E35). `first_broken` gives the failure that comes
//! first, and none exactly where neither rule fails. `way_back` tells by which of its calls a
//! routine reaches itself.
//!
//! It asks a graph whose nodes are the numbers below a size (`specs/Graph.antt`): `Graph` and
//! `Cycles` answer exactly which nodes reach which, and which reach themselves.
#![tactic(auto)]

mod calls;
mod coming_back;
mod cycles;
mod graph;
mod handlers;
mod numbers;
mod reach;
mod rounds;
mod routines;
mod rules_calls;
mod rules_calls_graph;
mod waits;
mod walk;

pub use coming_back::way_back;
pub use cycles::Cycles;
pub use graph::Graph;
pub use reach::is_marked;
pub use rules_calls::first_broken;
