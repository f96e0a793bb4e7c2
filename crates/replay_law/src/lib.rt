//! Laws: the log of every accepted program is a run; the verdict is one; its image is stored.
//!
//! `accepted_logs`: of each program that `go` accepts, `run` is due of the log over any script for
//! its names. `one_judgement`: what is due of `replay` is one. The others lead there: names are
//! words and tell events without doubt, operands and values of runs have 32 bits.
//!
//! `stored_programs`: what is stored of a program holds its image. Each field of the image that is
//! built is in the range that the format of images asks: names are identifiers, no keywords, and
//! differ; numbers, trees and operands fit; each event is of one process (`specs/Stored.antt`).
//! Nothing here can run.
#![tactic(auto)]

pub mod accepted_logs;
pub mod event_numbers_fit;
pub mod names_are_words;
pub mod names_unambiguous;
pub mod one_judgement;
pub mod operand_words;
pub mod stored_programs;
