//! The messages for logs, and for images and their texts.
//!
//! The family Messages: what a call that fails tells the one who made it. A line of a log that is
//! the text of no event is shown, with the first of its words that is wrong, or with the form that
//! a line of its event has. A log that is that of no run of the program is told by its first line
//! that is of none, and by the reason (`replay_reason_spec`), with the lines of the events that are
//! missing, due next or allowed.
//!
//! `specs/Log.antt` has the table of the events and defines the messages for texts that are no
//! logs, `specs/Refused.antt` the one for a log that is of no run, and each call makes exactly its
//! message. The only error is want of memory.
//!
//! Bytes that are no image, an image that is not valid and a text that is that of no image are told
//! by the file's name, the number of the fault and a sentence. That of an image that is not valid
//! names the part of it that fails (`faulty_part`) and what is wrong there; of a text its line is
//! shown too, with what may have led to the fault. `specs/Image.antt` defines these messages.
#![tactic(auto)]

mod bytes;
mod event_line;
mod messages;
mod openings;
mod parts;
mod reasons;
mod refused;
mod table;
mod texts;
mod ticks;
mod validity;

pub use bytes::image_message;
pub use messages::{log_message, long_message};
pub use refused::refused_message;
pub use texts::{image_text_message, long_text_message};
pub use validity::{test_number, valid_message};
