//! Law: every valid image is safe and in time; costs are over all paths.
//!
//! `validity_law`: a valid image whose numbers are in the ranges of their fields is never stuck,
//! within its sizes, apart in its monitors, and in time, whoever made it; it joins `machine_safety`
//! and `sched_timing`. `code_fits_tree`, `declared_uses`: it meets their premises. `capped_costs`:
//! costs may be capped as they are counted. `worst_path`: the worst cost is the largest over all
//! paths (`specs/Paths.antt`).
//!
//! `seven_rules`: each of the seven tests of an image is a rule in plain words
//! (`specs/PlainRules.antt`): a part has no fault exactly where its rule holds, and an image is
//! valid exactly where it keeps all seven. Nothing here can run.
#![tactic(auto)]

pub mod capped_costs;
pub mod code_fits_tree;
pub mod declared_uses;
mod seven_rules;
pub mod validity_law;
pub mod worst_path;

pub use seven_rules::{
    addresses_belong_to_owners, bound_are_reached, parts_fail_by_their_rules,
    parts_pass_by_their_rules, stays_are_reached, valid_keeps_all_rules, waits_are_reached,
};
