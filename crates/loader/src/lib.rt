//! The tests of trees, sizes, ranks and bounds; the first fault of an image.
//!
//! The definitions are those of `valid_image`. `shape_fault`, `handler_fault`, `cost_fault` and
//! `size_fault` promise the first fault of their part with its two numbers, and none exactly where
//! the part holds; the code of each part is gone through once, and what it comes to is kept in
//! `CodeCosts`. `rank_of`, `ceiling_of` and `needed_block` give the numbers that are due, `rank_fault`
//! and `bound_fault` test those that are declared. `routine_shortfall`, `process_shortfall` and
//! `stack_shortfall` test one routine, one process.
//!
//! `first_fault` of `parts_in_order` is the first fault in the order of the tests, and none exactly
//! where the image is valid.
#![tactic(auto)]

mod bounds;
mod costs;
mod due_ranks;
mod handlers;
mod longest_stay;
pub mod part;
mod parts;
mod parts_in_order;
mod ranks;
mod sizes;

pub use bounds::{bound_fault, declared_fault, task_at, task_set, with_rank};
pub use costs::{cost_fault, process_shortfall, routine_shortfall};
pub use due_ranks::{ceiling_of, needed_block, rank_of};
pub use handlers::{handler_fault, waits_table};
pub use longest_stay::{Stays, longest_stays};
pub use parts::{CodeCosts, ProcessCost, known_routine, process_due, routine_due, shape_fault};
pub use parts_in_order::{ValidityFault, fault_before_bounds, first_fault};
pub use ranks::rank_fault;
pub use sizes::{size_fault, stack_shortfall};
