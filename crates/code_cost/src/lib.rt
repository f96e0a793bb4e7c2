//! Measures of a program's texts: cost, height, length; the rules of size.
//!
//! `specs/Forms.antt` has the measure of each form, over the names in reach and a table of what is
//! known of the routines that it calls, `specs/Sums.antt` how measures are put together, and
//! `specs/Parts.antt` the measures of routines, each from those before it, and of processes.
//! `measure_program` gives just these, with numbers held at limits.
//!
//! `specs/Sizes.antt` says when measures are those that `code_cost_spec` defines without limit;
//! that they are is proved in `code_measures`.
//!
//! `specs/Rules.antt` says where a program has too many instructions (E46) or too large a stack
//! (E47), `specs/Told.antt` what the measures tell of this, before any code is made. Where the
//! measures are the defined ones, `too_large` gives the failure that comes first, and `None`
//! exactly where neither rule fails. `size_rules` has programs at the limits.
#![tactic(auto)]

mod expressions;
mod lengths;
mod loops;
mod measure;
mod program;
mod rules;
pub mod size_rules;
mod stacks;
mod statements;

pub use measure::{MOST, Measure, RoutineMeasure};
pub use program::{Measures, ProcessMeasure, measure_program};
pub use rules::too_large;
