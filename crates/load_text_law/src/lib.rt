//! Law: the load's texts have their tree and script; numbers keep the rules.
//!
//! `load_text_law`: the text of the program is short enough, and its tree is the load's, places
//! aside. `load_script_law`: the script is one for its names. `load_limits_law`: no rule for
//! declarations, for what is reached, or for numbers fails. `load_size_law`: how many instructions
//! there are. Nothing here can run.
#![tactic(auto)]

mod load_limits_law;
mod load_script_law;
mod load_size_law;
mod load_text_law;

pub use load_limits_law::{load_limits, load_numbers, load_reach};
pub use load_script_law::load_script;
pub use load_size_law::load_size;
pub use load_text_law::load_text;
