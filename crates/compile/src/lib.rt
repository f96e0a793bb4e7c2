//! From a checked program to its image; from a text.
//!
//! `specs/Build.antt` says what each answer of `build` means: too large exactly by the two rules of
//! size, late exactly where some recurrence has no solution within its deadline, else built
//! (`IsBuilt` of `built_image`). `specs/Compile.antt` says the same of `compile`, which begins with
//! a text, and `specs/Written.antt` of `read_written`, which asks no time.
//!
//! `fields_fit` and `loop_bounds_fit` are laws of checked programs: each number of what is made fits its
//! field, and bounds of loops have 32 bits. So no answer is left for what the generator could not
//! do.
#![tactic(auto)]

mod building;
mod built;
mod compiling;
pub mod fields_fit;
mod finish;
pub mod loop_bounds_fit;
mod measured_code;
mod read_text;
mod shape;

pub use building::build;
pub use built::{BuildFault, Built, LateProgram};
pub use compiling::{CompileFault, compile};
pub use measured_code::refuse_too_large;
pub use read_text::{ProgramTextFault, read_written};
pub use shape::ranked;
