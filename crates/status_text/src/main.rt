//! `main` of `rte`, run by the gate on a program text with a fault: it puts the line of the fault,
//! and ends with status 2.
#![tactic(auto)]

use command::{system_words, whole_call, words_are_short};
use outside::{RealFiles, RealSink};
use std::process::ExitCode;

fn main(rt: HostRuntime) -> ExitCode {
    let system_err = rt.stderr();
    let mut err = RealSink::new(&system_err);
    let code = match system_words(&rt) {
        Ok(words) => whole_call(
            rt.alloc(),
            words.as_slice(),
            &mut RealFiles::new(rt.alloc(), &rt),
            RealSink::new(&rt),
            &mut err,
        )
        .0
        .code(),
        Err(_) => words_are_short(&mut err).code(),
    };
    ExitCode::from(code)
}
