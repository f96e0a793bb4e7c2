//! Words, operators, and variables that a call has in reach; what names stand for.
//!
//! `specs/Reach.antt` says which memory of the source meaning a `Memory` stands for. Each function
//! equals the one of that meaning: what a name or an element is worth, stores, the variables of a
//! routine as they start, and the numbers of devices, monitors and conditions. Variables beside a
//! call's own are lent until something is stored to one of them. `NumberedConditions` lists the
//! conditions of a program once, and tells the number of each by its monitor and name.
//!
//! What operators make of words, and what names of routines stand for: each function answers what
//! the function of the same name of `source_semantics` answers. Values are kept in 64 bits, so no
//! premise on literals, ranges or variables is asked.
#![tactic(auto)]

mod answers;
mod conditions;
mod fresh;
mod lookup;
mod memory;
mod names;
mod numbers;
mod places;
mod reading;
mod slots;
mod storing;
mod turn;
mod words;

pub use answers::{joined, minus, opposite};
pub use conditions::NumberedConditions;
pub use fresh::{ArgumentResult, add_fresh, checked, param_variable, range_of};
pub use lookup::{EvalContext, ResolvedRoutine, RoutineHome, equal};
pub use memory::{CowSlots, Memory, lent};
pub use names::{entry_named, home_in, routine_named};
pub use numbers::{condition_here, device_number, monitor_number};
pub use places::place_at;
pub use reading::{element, name_value};
pub use slots::slots_copied;
pub use storing::store_to;
pub use turn::{drop_turn, push_turn, turn_count};
pub use words::{Answer, is_true, negated, operated, truth};
