//! The words that the system gives.

use std::env::Env;
use std::{env, io};

/// The words after the program's name. Words that are no text are no command, and count as none.
///
/// # Errors
///
/// Where there is not enough memory for them.
pub fn system_words<R: Env + AllocGlobal>(rt: &R) -> io::Result<Vec<String>> {
    match env::args(rt) {
        Ok(words) => Ok(words.skip(1).collect(rt.alloc())?),
        Err(error) if error.kind() == io::ErrorKind::InvalidData => Ok(Vec::new(rt.alloc())),
        Err(error) => Err(error),
    }
}
