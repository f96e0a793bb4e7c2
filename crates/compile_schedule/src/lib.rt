//! Ranks, ceilings, blocks and least bounds, filled in; the table.
//!
//! `rank` fills in ranks by deadlines (Leung and Whitehead), immediate ceilings, and blocks: the
//! longest stay of a lower process in a monitor whose ceiling is at least the rank (`HasRanks` of
//! `code_measures`). `bounds` finds the least bound of each process within its deadline, and none
//! exactly where there is none; `with_bounds` fills them in, `table` lists them with what the image
//! declares.
#![tactic(auto)]

mod least_bounds;
mod processes;
mod ranks;
mod shown;
mod with_bounds_filled;

pub use least_bounds::bounds;
pub use ranks::rank;
pub use shown::table;
pub use with_bounds_filled::with_bounds;
