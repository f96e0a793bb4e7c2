//! Task tables: their spelling, their faults, and the program of each.
//!
//! The family Task tables: a table of frames, deadlines, costs and stays becomes a program.
//! `table_format` has the definitions and writes the program's text, `table_reader` reads a table.
//!
//! `specs/Spelling.antt` says how a table is spelled, `specs/Rules.antt` which text is a table,
//! `specs/Faults.antt` what is wrong with a text that is none, and on which line. In
//! `specs/Spending.antt` are the statements that take so many ticks, in `specs/Program.antt` the
//! program of a table, whose canonical text is what is stored.
//!
//! `table_text` writes that text: the events, the monitors with an entry for each different stay,
//! and the processes. `all_stays` and `monitor_names` are of use for a table that is being read.
//! `specs/Parts.antt` says which text the parts of a program have. What is taken is in proportion
//! to the table and to what is written.
#![tactic(auto)]

mod monitors;
mod names;
mod parts;
mod processes;
mod spending;
mod table;
mod text;

pub use monitors::monitor_names;
pub use names::all_stays;
pub use table::{TaskLine, TaskStay, TaskTable};
pub use text::table_text;
