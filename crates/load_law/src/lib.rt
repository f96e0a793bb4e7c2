//! Law: no rule fails of the load, and it is never late.
//!
//! `specs/Rules.antt`, `specs/Time.antt` and `specs/Texts.antt` say what is claimed.
//! `load_names_law`, `load_types_law` and `load_stacks_law` are the rules; `low_utilization` and `load_cost`
//! the time: processes that each ask for a small share of the shortest frame respond within it.
//! `load_laws` joins all. Nothing here can run.
#![tactic(auto)]

mod load_cost;
mod load_laws;
mod load_names_law;
mod load_stacks_law;
mod load_types_law;
mod low_utilization;

pub use load_cost::load_is_light;
pub use load_laws::{load_is_in_time, load_keeps_rules, load_texts};
pub use load_names_law::load_names;
pub use load_stacks_law::load_stacks;
pub use load_types_law::load_types;
pub use low_utilization::light_images_respond;
