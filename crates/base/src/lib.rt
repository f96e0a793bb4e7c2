//! Words, operations, capped costs; events.
//!
//! The family Ground: what both meanings, the analysis and the outside share, and what knows no
//! program. `base` has numbers and events, `outside` files and output, `text_fields` the fields of
//! a line.
//!
//! Defined are what each operation of the language makes of its operands, a word or an exception
//! (`specs/Words.antt`), and the cap of costs (`specs/Capped.antt`). An `Event` is an `Act` of one
//! process at a tick. Each call promises the exact value, or the exception exactly by the rule, and
//! takes no memory.
#![tactic(auto)]

mod capped;
mod event;
mod words;

pub use capped::{Cost, OVER, cap_add, cap_mul, ceil_div};
pub use event::{Act, Event};
pub use words::{add32, div32, mod32, mul32, neg32, sub32};
