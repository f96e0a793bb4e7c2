//! What code and tree of a part come to; pieces of code, their owners, operands.
//!
//! A piece is the code of a routine or a process. An address belongs to the piece with the greatest
//! start not above it (`Pieces` of `valid_image`). `addresses_by_piece` promises the addresses of
//! each piece in ascending order, `calls_by_piece` the routines that each calls.
//!
//! `operand_fault` promises the first instruction whose operand is out of range, or touches what
//! the owner of its code may not (`Operands` of `valid_image`), routines before processes, and none
//! exactly where there is none.
//!
//! What a part comes to: height, worst cost, depth. The definition is `founds` of `valid_image`: one
//! computation over tree and code, or nothing where the code is not of its tree or a rule of heights
//! fails. `part_found` and `routine_found` promise just that, with costs held at one more than a
//! thousand million and depths at 4,097 (`specs/TreesTold.antt`). Trees are looked at as they stand
//! in bytes, so no memory is taken. The calls recurse down the tree; a tree that has more bytes than
//! code of this length can need is of none, and is not gone over.
#![tactic(auto)]

mod bases;
mod bound;
mod calls;
mod fault;
mod instructions;
mod known;
mod operand;
mod part_cost;
mod parts;
mod seams;
mod steps;
mod sweep;
mod tree_cost;
mod words;

pub use bases::{FaultNumbers, base_fault};
pub use calls::calls_by_piece;
pub use fault::operand_fault;
pub use known::{CodeCost, PartCost, RoutineCost, TOO_DEEP};
pub use part_cost::{depth_bytes, fits_bytes, worst_bytes};
pub use parts::{part_found, routine_found};
pub use sweep::{addresses_by_piece, of_piece};
pub use tree_cost::tree_end;
