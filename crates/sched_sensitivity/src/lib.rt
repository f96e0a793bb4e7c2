//! Sensitivity: how many ticks a process can spare; the greatest cost and overhead that fit.
//!
//! `specs/Slack.antt` defines the greatest number of ticks by which the run cost of a level may
//! grow while each level has a bound (sensitivity analysis of fixed priorities: Vestal). `slack`
//! promises exactly that number, `first_failing` the first level that fails with one tick more, and
//! that the set of tasks is afterwards as before. That no set becomes timely by longer runs is a
//! law.
//!
//! What fits: `specs/Fit.antt` defines the greatest number of ticks that can stand in the place of a
//! cost or a suspension while each level has a bound, and that nothing fits exactly where 0 does
//! not; `specs/Overhead.antt` the same of the overhead. `fit` and `overhead_fit` promise exactly
//! these numbers, also of tasks that are not in time, within a bound on evaluations. Laws say that
//! where a number fits each smaller one does, that the tasks are in time exactly where what fits is
//! no less than what they have, and that it is then the cost and the spare ticks.
//!
//! What fits of each process as text: `specs/Rows.antt` says what is told of a process, its cost
//! and its suspension, and what fits in their places; `specs/Lines.antt` is the text, a function of
//! these numbers and of the overhead alone. `process_fits` finds the numbers, `fits_text` writes
//! the text.
#![tactic(auto)]

mod failing;
mod finding;
pub mod fit_law;
mod fit_uncounted;
mod fitting;
mod lines;
mod overhead;
mod rows;
mod slack_law;
mod spare;
pub mod text_law;
mod uncounted;

pub use failing::first_failing;
pub use finding::process_fits;
pub use fit_uncounted::{fit_of, overhead_fit_of};
pub use fitting::{Varied, fit};
pub use lines::fits_text;
pub use overhead::{overhead_fit, with_overhead};
pub use rows::{ProcessFit, SuspensionFit};
pub use slack_law::less_is_timely_too;
pub use spare::{Spare, slack};
pub use uncounted::slack_of;
