//! Tests of the rooms below the commands.
//!
//! Each public call that no test of the commands comes to, once with ample memory, by values that
//! are known from outside. Images through the loader with single bytes changed (`changed_bytes`), and
//! by the parts of a loaded image (`references`).
#![tactic(auto)]

#[cfg(test)]
mod admission;
#[cfg(test)]
mod changed_bytes;
#[cfg(test)]
mod images;
#[cfg(test)]
mod loads;
#[cfg(test)]
mod numbers;
#[cfg(test)]
mod references;
#[cfg(test)]
mod scripts;
#[cfg(test)]
mod system;
#[cfg(test)]
mod trees;
