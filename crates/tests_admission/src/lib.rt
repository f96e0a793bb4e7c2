//! Tests of images from any hand that run under earliest deadline first.
//!
//! The log of an image that `EdfImage` admitted, with one that is known from the rules.
#![tactic(auto)]

#[cfg(test)]
mod runs;
