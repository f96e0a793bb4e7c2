//! Calls of the top over files and a sink in memory.

use command::rte;
use outside::{MemoryFiles, MemorySink};
use std::alloc::Global;
use std::test::Fail;
use syntax_tree::Text;

/// The bytes that the sink of a call takes.
pub(crate) const ROOM: usize = 1_048_576;

/// What a call came to: its status, the bytes and the pieces that it put, and what P, S, I and J
/// hold.
#[derive(Drop)]
pub struct CallResult {
    pub status: u8,
    pub put: Vec<u8>,
    pub puts: u64,
    pub program: Option<Vec<u8>>,
    pub script: Option<Vec<u8>>,
    pub image: Option<Vec<u8>>,
    pub migrated: Option<Vec<u8>>,
}

/// Which reads, writes and puts fail, by their numbers from 1; 0 is none.
#[derive(Clone, Copy)]
pub struct Failures {
    pub read: u64,
    pub write: u64,
    pub put: u64,
}

pub const NO_FAILURES: Failures = Failures {
    read: 0,
    write: 0,
    put: 0,
};

fn push_words(alloc: Global, words: &mut Vec<String>, line: &str) -> Result<(), Fail> {
    for word in line.split(' ') {
        words.push(String::from_str(alloc, word)?)?;
    }
    Ok(())
}

/// The words of a line, which has one space between them; an empty line has none.
pub(crate) fn words_of(alloc: Global, line: &str) -> Result<Vec<String>, Fail> {
    let mut words = Vec::new(alloc);
    if !line.is_empty() {
        push_words(alloc, &mut words, line)?;
    }
    Ok(words)
}

/// A call of the words of the line, where P holds the program and S the script, if there is one.
pub fn call(
    alloc: Global,
    line: &str,
    program: &[u8],
    script: Option<&str>,
) -> Result<CallResult, Fail> {
    call_with(alloc, line, program, script, NO_FAILURES)
}

/// What a call has to answer: its status, what it puts, and in how many pieces, where this is told.
#[derive(Clone, Copy)]
pub struct Expected<'a> {
    pub status: u8,
    pub put: &'a str,
    pub puts: Option<u64>,
}

/// Fails where the call does not answer so, and tells what it answered.
pub fn answers(
    alloc: Global,
    line: &str,
    program: &[u8],
    script: Option<&str>,
    want: Expected<'_>,
) -> Result<(), Fail> {
    answers_with(alloc, line, program, script, NO_FAILURES, want)
}

/// The same, with failures.
pub fn answers_with(
    alloc: Global,
    line: &str,
    program: &[u8],
    script: Option<&str>,
    failures: Failures,
    want: Expected<'_>,
) -> Result<(), Fail> {
    call_with(alloc, line, program, script, failures)?.answered(alloc, line, want)
}

/// The same of a call where I holds the image and S the script.
pub fn answers_on_image(
    alloc: Global,
    line: &str,
    image: &[u8],
    script: &str,
    want: Expected<'_>,
) -> Result<(), Fail> {
    call_on_image(alloc, line, image, script)?.answered(alloc, line, want)
}

/// What a call with status 0 puts.
pub fn put_of(
    alloc: Global,
    line: &str,
    program: &[u8],
    script: Option<&str>,
) -> Result<Vec<u8>, Fail> {
    let CallResult { status, put, .. } = call(alloc, line, program, script)?;
    if status == 0 {
        return Ok(put);
    }
    Err(Fail::new(format_args!("{line}: status {status}")))
}

/// What I holds behind a call.
pub fn image_of(
    alloc: Global,
    line: &str,
    program: &[u8],
    script: Option<&str>,
) -> Result<Vec<u8>, Fail> {
    let CallResult { image, .. } = call(alloc, line, program, script)?;
    Ok(image.ok_or("no image")?)
}

/// The same, with failures.
pub fn call_with(
    alloc: Global,
    line: &str,
    program: &[u8],
    script: Option<&str>,
    failures: Failures,
) -> Result<CallResult, Fail> {
    match script {
        Some(text) => {
            let given: &[(&str, &[u8])] = &[("P", program), ("S", text.as_bytes())];
            given_call(alloc, line, given, failures)
        }
        None => given_call(alloc, line, &[("P", program)], failures),
    }
}

/// A call where I holds the image and S the script.
pub fn call_on_image(
    alloc: Global,
    line: &str,
    image: &[u8],
    script: &str,
) -> Result<CallResult, Fail> {
    let given: &[(&str, &[u8])] = &[("I", image), ("S", script.as_bytes())];
    given_call(alloc, line, given, NO_FAILURES)
}

/// A call where P holds the program, S the script, and the file of this name the bytes, with
/// failures.
pub fn call_beside(
    alloc: Global,
    line: &str,
    program: &str,
    script: &str,
    name: &str,
    bytes: &[u8],
    failures: Failures,
) -> Result<CallResult, Fail> {
    let given: &[(&str, &[u8])] = &[
        ("P", program.as_bytes()),
        ("S", script.as_bytes()),
        (name, bytes),
    ];
    given_call(alloc, line, given, failures)
}

/// What a call has to answer, put and leave behind: what P, S, I and J hold then, `None` where the
/// file is missing.
#[derive(Clone, Copy)]
pub struct Left<'a> {
    pub status: u8,
    pub put: &'a str,
    pub program: Option<&'a [u8]>,
    pub script: Option<&'a [u8]>,
    pub image: Option<&'a [u8]>,
    pub migrated: Option<&'a [u8]>,
}

/// The file holds just these bytes, or is missing.
fn holds(file: &Option<Vec<u8>>, want: Option<&[u8]>) -> bool {
    match (file, want) {
        (None, None) => true,
        (Some(bytes), Some(want)) => bytes.as_slice() == want,
        _ => false,
    }
}

impl CallResult {
    /// Fails where the call has another answer, and tells it.
    pub fn answered(&self, alloc: Global, line: &str, want: Expected<'_>) -> Result<(), Fail> {
        let pieces = want.puts.unwrap_or(self.puts);
        let put = self.put.as_slice();
        if self.status == want.status && put == want.put.as_bytes() && self.puts == pieces {
            return Ok(());
        }
        let text = String::from_utf8_lossy(alloc, put)?;
        Err(Fail::new(format_args!(
            "{line}: status {}, in {} pieces: {}",
            self.status,
            self.puts,
            text.as_str()
        )))
    }

    /// Fails where the call came to anything else.
    pub fn left(&self, line: &str, want: &Left<'_>) -> Result<(), Fail> {
        if self.status != want.status || self.put.as_slice() != want.put.as_bytes() {
            return Err(Fail::new(format_args!(
                "{line}: status {}, {} bytes put",
                self.status,
                self.put.len()
            )));
        }
        if holds(&self.program, want.program)
            && holds(&self.script, want.script)
            && holds(&self.image, want.image)
            && holds(&self.migrated, want.migrated)
        {
            return Ok(());
        }
        Err(Fail::new(format_args!("{line}: files are otherwise")))
    }
}

pub(crate) fn failing(alloc: Global, failures: Failures) -> Result<MemoryFiles, Fail> {
    let reads = vec![in alloc; failures.read]?;
    let writes = vec![in alloc; failures.write]?;
    Ok(MemoryFiles::new(alloc, reads, writes))
}

/// What the file of this name holds.
fn held(alloc: Global, files: &MemoryFiles, name: &str) -> Result<Option<Vec<u8>>, Fail> {
    match files.held(name) {
        Some(bytes) => Ok(Some(Vec::from_slice(alloc, bytes)?)),
        None => Ok(None),
    }
}

/// Keeps what the sink and the files hold.
fn keep(
    alloc: Global,
    made: &mut CallResult,
    out: &MemorySink,
    files: &MemoryFiles,
) -> Result<(), Fail> {
    made.put.extend_from_slice(out.bytes())?;
    made.program = held(alloc, files, "P")?;
    made.script = held(alloc, files, "S")?;
    made.image = held(alloc, files, "I")?;
    made.migrated = held(alloc, files, "J")?;
    Ok(())
}

/// What a call with this status came to.
fn result_of(
    alloc: Global,
    status: u8,
    out: &MemorySink,
    files: &MemoryFiles,
) -> Result<CallResult, Fail> {
    let mut made = CallResult {
        status,
        put: Vec::new(alloc),
        puts: out.puts(),
        program: None,
        script: None,
        image: None,
        migrated: None,
    };
    keep(alloc, &mut made, out, files)?;
    Ok(made)
}

fn call_of(
    alloc: Global,
    words: &[String],
    files: &mut MemoryFiles,
    failures: Failures,
) -> Result<CallResult, Fail> {
    let mut out = MemorySink::new(alloc, ROOM, vec![in alloc; failures.put]?)?;
    let mut message = Text::new(alloc);
    let status = rte(alloc, words, files, &mut out, &mut message);
    result_of(alloc, status.code(), &out, files)
}

fn place(files: &mut MemoryFiles, given: &[(&str, &[u8])]) -> Result<(), Fail> {
    for &(name, bytes) in given {
        files.place(name, bytes)?;
    }
    Ok(())
}

/// A call where the files of these names hold these bytes, with failures.
fn given_call(
    alloc: Global,
    line: &str,
    given: &[(&str, &[u8])],
    failures: Failures,
) -> Result<CallResult, Fail> {
    let words = words_of(alloc, line)?;
    let mut files = failing(alloc, failures)?;
    place(&mut files, given)?;
    call_of(alloc, words.as_slice(), &mut files, failures)
}

/// Lines that are parted by bars, each with its end.
pub fn lines(alloc: Global, bars: &str) -> Result<String, Fail> {
    let parted = bars.replace(alloc, "|", "\n")?;
    Ok(format!(in alloc; "{parted}\n")?)
}
