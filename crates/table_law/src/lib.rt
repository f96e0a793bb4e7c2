//! Laws: a task table, the text of its program, and the numbers of that program.
//!
//! `specs/Once.antt` says that a text is that of one table, or has one fault. `specs/Costs.antt`
//! says that the processes are those of the lines, that each takes its cost and neither waits nor
//! suspends itself, and that each entry stays in its monitor for its ticks; `specs/Frames.antt` has
//! frames and deadlines, `specs/Sizes.antt` instructions and stacks.
//!
//! The text of the program has a tree, which is that of the definition, is canonical, and is only
//! so long (`specs/Tree.antt`); the statements that spend so many ticks take just these
//! (`specs/Ticks.antt`); the tail of the made names is free (`specs/Tails.antt`).
//!
//! The program keeps to all rules: of statements, of reach and of limits (`specs/Rules.antt`), of
//! names (`specs/Names.antt`), of events and all together (`specs/Checked.antt`); its text is that
//! of a program, and has no fault (`specs/Faultless.antt`).
//!
//! The recurrence over the table is that of its program: `specs/Tasks.antt` says what ranks,
//! ceilings, blocks and tasks a table has, told of the table alone, and `specs/Agree.antt` that
//! they are those of its program.
//!
//! The text is a program text in full: no rule of size fails of the program
//! (`specs/WrittenSizes.antt`), it is not too large, and it is the text that is printed of that
//! program (`specs/Written.antt`). Nothing here can run.
#![tactic(auto)]

pub mod agree_law;
mod checked_law;
mod costs_law;
pub mod example;
mod frames_law;
mod names_law;
pub mod once_law;
mod program_law;
mod sizes_law;
mod spend_law;
mod table_rules;
mod tail_law;
mod tree_law;
mod written_law;
mod written_sizes_law;

pub use checked_law::{table_events, table_is_checked};
pub use costs_law::table_costs;
pub use frames_law::table_frames;
pub use names_law::table_names;
pub use program_law::table_text_is_program;
pub use sizes_law::table_sizes;
pub use spend_law::spend_takes;
pub use table_rules::{table_limits, table_reach, table_statements};
pub use tail_law::tail_is_free;
pub use tree_law::table_tree;
pub use written_law::table_text_is_written;
pub use written_sizes_law::table_keeps_sizes;
