//! Reads an image or its text: run, watch, chart, migrate, asm, dis.
//!
//! An image is loaded by `Image::load` of `image_loaded`; `load_text` gives that of a text, or the
//! first fault, of the text, else of validity (`specs/Telling.antt`).
//!
//! For each of the six commands a call promises an act that comes to what is due (`command_due`),
//! and that the machine can run; or a read that failed (`Prepared` of `command_answers`).
//! Where the act refuses the call, the message of the fault takes the place of the given text
//! (`IsExplained` of `command_refusals`).
#![tactic(auto)]

mod charting;
mod images;
mod running;
mod scripts;
mod telling;
mod texts;
mod watching;

pub use charting::prepare_chart;
pub use images::prepare_migrate;
pub use running::prepare_run;
pub use telling::{ImageTextFault, load_text};
pub use texts::{prepare_asm, prepare_dis};
pub use watching::prepare_watch;
