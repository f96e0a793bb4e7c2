//! What a call tells a person.

use crate::calls::{Failures, NO_FAILURES, ROOM, failing, words_of};
use command::whole_call;
use outside::{MemoryFiles, MemorySink};
use std::alloc::Global;
use std::test::Fail;

fn place(files: &mut MemoryFiles, given: &[(&str, &str)]) -> Result<(), Fail> {
    for &(name, text) in given {
        files.place(name, text.as_bytes())?;
    }
    Ok(())
}

/// Files of these names with these texts, and failures.
fn given_files(
    alloc: Global,
    given: &[(&str, &str)],
    failures: Failures,
) -> Result<MemoryFiles, Fail> {
    let mut files = failing(alloc, failures)?;
    place(&mut files, given)?;
    Ok(files)
}

/// What the call of these words tells a person.
fn told_of(
    alloc: Global,
    words: &[String],
    files: &mut MemoryFiles,
    failures: Failures,
) -> Result<String, Fail> {
    let mut err = MemorySink::new(alloc, ROOM, Vec::new(alloc))?;
    let out = MemorySink::new(alloc, ROOM, vec![in alloc; failures.put]?)?;
    let _ = whole_call(alloc, words, files, out, &mut err);
    Ok(String::from_utf8_lossy(alloc, err.bytes())?)
}

/// What the call of the words of the line tells a person, where these files are given.
pub fn told(
    alloc: Global,
    line: &str,
    given: &[(&str, &str)],
    failures: Failures,
) -> Result<String, Fail> {
    let words = words_of(alloc, line)?;
    let mut files = given_files(alloc, given, failures)?;
    told_of(alloc, words.as_slice(), &mut files, failures)
}

/// The status of the call of these words where the first put on standard error fails.
fn status_of(alloc: Global, words: &[String], files: &mut MemoryFiles) -> Result<u8, Fail> {
    let mut err = MemorySink::new(alloc, ROOM, vec![in alloc; 1]?)?;
    let out = MemorySink::new(alloc, ROOM, Vec::new(alloc))?;
    let (ended, _) = whole_call(alloc, words, files, out, &mut err);
    Ok(ended.code())
}

/// The status of the call where its message fails: the first put on standard error.
pub fn status_untold(alloc: Global, line: &str, given: &[(&str, &str)]) -> Result<u8, Fail> {
    let words = words_of(alloc, line)?;
    let mut files = given_files(alloc, given, NO_FAILURES)?;
    status_of(alloc, words.as_slice(), &mut files)
}
