//! The chart of a run, drawn.
//!
//! `run_chart` says what a chart is. `chart` lets the machine go by
//! whole rows to the first tick that is shown, and then turn by turn to the last. In all ticks of a
//! turn each process has the same letter (`letters`), so one look at each turn tells them; no turn
//! passes the end of a column. Of the events it counts ends, and measures responses. It takes memory
//! in proportion to the image, the script and 100 columns.
//!
//! It promises just the text of `run_chart`; an error says that memory is short.
#![tactic(auto)]

mod course;
mod drawing;
mod letters;
mod lines;
mod put;
mod traces;

pub use drawing::chart;
