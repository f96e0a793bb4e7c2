//! The table of bounds, the report and its JSON.
//!
//! `specs/Table.antt` is the table: a row for each process with what it uses, its rank, its block
//! and the least bound, or none exactly where there is none. `specs/Report.antt` and
//! `specs/Json.antt` are the two texts, functions of names and table alone. `report` and
//! `report_json` promise exactly these; the report on the mine pump is spelled out.
#![tactic(auto)]

mod json;
mod late;
mod lines;
pub mod report_law;
mod table;
mod table_law;

pub use json::report_json;
pub use lines::{add_name, add_number, report};
pub use table::{Row, Size, Table};
pub use table_law::timely_tables_respond;
