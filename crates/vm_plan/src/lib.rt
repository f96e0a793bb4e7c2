//! The plan of a run, made of an image.
//!
//! `plan_of` decodes an image, which is kept as its bytes, once into the `Plan` of `vm_state`: its
//! code, its routines, when each process is released and where its parts end. It promises that the
//! plan is that of the image.
//!
//! `specs/HasPlan.antt` says what is asked of the image. Every valid image that a file holds has
//! such a plan (`runnable_images`).
#![tactic(auto)]

mod parts;
mod plan;
mod process;
pub mod runnable_images;

pub use plan::plan_of;
