//! Law: the image that is built of a program is faithful to it.
//!
//! Of a text that is written and not too large, with any overhead: the image is valid, and every
//! run of it over a script for its names is a run of the program, in time and within its sizes
//! (`BuiltImagesAreFaithful` of `command_due`). Nothing here can run.
#![tactic(auto)]

pub mod faithful_images;
