//! Programs and images that meet the premises of the laws.
//!
//! The family Examples and tests: that no premise is empty, and calls that show the tool at work.
//! `examples_law` is proved; the rooms `tests_..` call the top over files in memory, `guide` runs
//! what the documents show.
//!
//! `examples`: programs that are well formed, and near misses that are not. `mine_pump_code` and
//! `made_examples`: the mine pump with its code of 103 instructions, and what the generator makes
//! of it. The others are examples of the law whose name they have. Nothing here can run.
#![tactic(auto)]

pub mod code_of_program_example;
pub mod code_of_text_example;
pub mod compiled_example;
pub mod examples;
pub mod generated_example;
pub mod headline_example;
mod made_examples;
pub mod mine_pump_code;
pub mod operands_fit_example;
pub mod process_code_example;
pub mod sound_text_example;
pub mod wait_free_example;

pub use made_examples::{
    each_other_form_is_made, the_mine_pump_is_made, the_signalled_wait_is_made,
};
