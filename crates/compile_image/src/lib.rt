//! The image put together, all but its times.
//!
//! `image_names` gives the names of a program's parts as `built_image` defines them. `assemble`
//! puts the image together from code and measures: it holds the code with the words and tables of
//! the text (`Holds`), declares the costs and stacks that are defined of it (`Declares`), and has
//! names and overhead; ranks, ceilings, blocks and bounds are 0 here. `specs/Fields.antt` says what
//! is asked of the numbers.
#![tactic(auto)]

mod assemble_image;
mod counts;
mod declared;
mod errors;
mod events;
mod handlers;
mod lists;
mod loops;
mod monitors;
mod names;
mod parts;
mod processes;
mod releases;
mod routines;

pub use assemble_image::assemble;
pub use counts::count;
pub use names::image_names;
