//! The lines of a log, written and read.
//!
//! `line_of` of `specs/Line.antt` is the line of an event, which `write_line` puts.
//! `specs/Logs.antt` says which events the names of an image can tell, which text is the log of
//! which events, and which line of a text is the first that tells none. `LogReader` gives the
//! events of a text one after another, or that line, and keeps none (`specs/Reader.antt`); that a
//! text is the log of one list of events at most is a law (`one_log`).
#![tactic(auto)]

mod act;
mod digits;
mod fault;
mod find;
mod line;
mod lines;
mod numbers;
mod one_log_law;
mod reader;
mod text;
mod verb;
mod words;

pub use fault::LogFault;
pub use find::NameIndex;
pub use lines::write_line;
pub use numbers::condition_names;
pub use one_log_law::one_log;
pub use reader::LogReader;
pub use text::LineBuffer;
