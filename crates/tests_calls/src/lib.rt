//! Calls of the top over files in memory; programs to share.
//!
//! What is known of these programs and images was found outside. The other rooms of tests call the
//! top through `answers` and its like, which compare what a call answers and puts with what it has
//! to; or, where the files are looked at too, through `call`, `call_with`, `call_beside` and
//! `call_on_image`, which give the status, what was put and what the files hold then as a
//! `CallResult`. `told` gives what a call tells a person, and `status_untold` the status of a call
//! whose message fails.
#![tactic(auto)]

mod calls;
mod known;
mod messages;
mod programs;

pub use calls::{
    CallResult, Expected, Failures, Left, NO_FAILURES, answers, answers_on_image, answers_with,
    call, call_beside, call_on_image, call_with, image_of, lines, put_of,
};
pub use known::{IDLE_FIRST, IDLE_SECOND, VALVE, VALVE_FIRST, VALVE_SECOND, with_byte};
pub use messages::{status_untold, told};
pub use programs::{
    GoCase, MINE, MINE_LOG, MINE_REPORT, Put, mine_cases, several_cases, single_cases, slack_cases,
};
