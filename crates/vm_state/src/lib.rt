//! What the running machine keeps: the plan of its image, and the board.
//!
//! `specs/Plan.antt` says when a plan is that of an image (`IsOf`), `specs/Board.antt` which state
//! of the machine's meaning a board is (`state_of`), and that it has a place for all that the image
//! has (`IsBoardOf`). `MachineState::new` is the state at the start; nothing that is made here takes
//! memory later.
//!
//! The parts of the board lie open, so that one process runs on its own activation and words
//! without a copy. `visible_effects` has the instructions that others see, each by its effect on the parts
//! that it touches; `threads` and `queues` keep the processes and who waits.
#![tactic(auto)]

mod decoded_image;
mod event_buffer;
mod machine_state;
mod queues;
mod threads;
mod visible_effects;

pub use decoded_image::{DecodedImage, DecodedProcess, Release};
pub use event_buffer::{EventBuffer, MOST, tell};
pub use machine_state::MachineState;
pub use queues::Queues;
pub use threads::{ControlBlock, SchedulingState, broadcast, signal};
pub use visible_effects::{WaitRequest, empty, enter, get, leave, put, wait};
