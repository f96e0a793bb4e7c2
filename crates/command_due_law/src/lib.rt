//! Laws: what is due of each command is one.
//!
//! `one_answer`: a text is that of one program or has one fault, bytes are one valid image or have
//! one fault, and what is due of each command is one. `one_edf_answer`: the same of `edf`.
//! `one_judgement`: what its test says of a text is one. Nothing here can run.
#![tactic(auto)]

pub mod one_answer;
pub mod one_edf_answer;
pub mod one_judgement;
