//! What the generator is told, and what it makes of each form.
//!
//! `specs/Told.antt` says what of names the generator is told, `specs/Made.antt` what it makes of
//! expressions and statements, code with the segments beside it, `specs/Parts.antt` of routines,
//! processes and a program, and `specs/Held.antt` when an image holds what is made (`Holds`). The
//! traits `Lookup` and `Lookups`, which the generator asks, and the types of what it makes stand
//! here.
#![tactic(auto)]

mod code;
mod lookup;
mod var_location;

pub use code::{Code, Part, ProcessParts};
pub use lookup::{Lookup, Lookups};
pub use var_location::{Area, Callee, Loop, Owner, ValueRange, VarLocation, VarShape};
