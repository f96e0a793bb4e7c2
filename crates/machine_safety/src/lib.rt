//! Laws: never stuck, within sizes, apart in monitors; worked images.
//!
//! Whoever made the image: where it meets the premise of `machine_semantics`, no process of it
//! meets a missing operand, an occupied monitor or a full stack, and what an activation may still
//! run, wait and stay falls with every tick. The calls of `safety_law` state this, those of
//! `example` give images that meet the premise.
//!
//! Worked images: each image of `specs/SmallImages.antt` has just the events that stand beside it,
//! computed by the machine's meaning.
//!
//! Images that are valid, and near misses (`specs/ValidImages.antt`): the definition of
//! `valid_image` is met by images with monitors, waits, signals, handlers, branches, loops, calls,
//! overhead and deadlines below frames, and each test refuses what it should, with the two numbers
//! that it should show. Nothing here can run.
#![tactic(auto)]

pub mod example;
pub mod log;
pub mod safety_law;
pub mod small_images;
pub mod valid_images;
