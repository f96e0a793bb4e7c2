//! What a command puts.

ghost use Rattle.std.specs.Prelude.{◌≡◌, [], IfOk};
ghost use Rattle.outside.specs.Memory.{bytes_of};

use command::whole_call;
use outside::{MemorySink, RealFiles};
use std::alloc::Global;
use std::{fs, io};

/// The bytes that the sink of a command takes.
const ROOM: usize = 1_048_576;

fn push_words(alloc: Global, words: &mut Vec<String>, line: &str) -> io::Result<()> {
    for word in line.split_whitespace() {
        words.push(String::from_str(alloc, word)?)?;
    }
    Ok(())
}

/// The words of a line.
fn words_of(alloc: Global, line: &str) -> io::Result<Vec<String>> {
    let mut words = Vec::new(alloc);
    push_words(alloc, &mut words, line)?;
    Ok(words)
}

fn push_bytes(alloc: Global, text: &mut String, bytes: &[u8]) -> io::Result<()> {
    let part = String::from_utf8_lossy(alloc, bytes)?;
    Ok(text.push_str(part.as_str())?)
}

/// The one behind the other, as a text.
fn joined(alloc: Global, put: &[u8], told: &[u8]) -> io::Result<String> {
    let mut all = String::from_utf8_lossy(alloc, put)?;
    push_bytes(alloc, &mut all, told)?;
    Ok(all)
}

/// A sink that has taken nothing.
fn sink(alloc: Global) -> io::Result<MemorySink>
    ensures { IfOk result (λ sink. bytes_of sink ≡ []) }
{
    match MemorySink::new(alloc, ROOM, Vec::new(alloc)) {
        Ok(sink) => Ok(sink),
        Err(_) => Err(io::Error::from(io::ErrorKind::OutOfMemory)),
    }
}

/// What `rte` puts for these words, and then what it tells.
fn of_words<R: std::rt::Files + AllocGlobal>(
    rt: &R,
    words: &[String],
    status: &mut u8,
) -> io::Result<String> {
    let alloc = rt.alloc();
    let out = sink(alloc)?;
    let mut err = sink(alloc)?;
    let mut files = RealFiles::new(alloc, rt);
    let (ended, out) = whole_call(alloc, words, &mut files, out, &mut err);
    *status = ended.code();
    joined(alloc, out.bytes(), err.bytes())
}

/// What `rte` puts for these words, over the files of the system, and then what it tells a person. Its
/// status goes to `status`.
pub fn of_rte<R: std::rt::Files + AllocGlobal>(
    rt: &R,
    words: &str,
    status: &mut u8,
) -> io::Result<String> {
    let words = words_of(rt.alloc(), words)?;
    of_words(rt, words.as_slice(), status)
}

/// Puts the lines of a text that the call keeps, each with its end.
fn push_kept(
    all: &mut String,
    text: &str,
    least: usize,
    most: usize,
    word: &str,
) -> io::Result<()> {
    for line in text.lines().skip(least).take(most) {
        if line.contains(word) {
            all.push_str(line)?;
            all.push_str("\n")?;
        }
    }
    Ok(())
}

/// The lines of a text that the call keeps.
fn kept(alloc: Global, text: &str, least: usize, most: usize, word: &str) -> io::Result<String> {
    let mut all = String::new(alloc);
    push_kept(&mut all, text, least, most, word)?;
    Ok(all)
}

/// What `diff` puts of a text and the file of this name.
fn difference<R: fs::Files + AllocGlobal>(rt: &R, text: &str, name: &str) -> io::Result<String> {
    let held = fs::read_to_string(rt, name)?;
    let answer = if held.as_str() == text {
        ""
    } else {
        "differs\n"
    };
    Ok(String::from_str(rt.alloc(), answer)?)
}

/// The text behind a filter.
fn filtered<R: fs::Files + AllocGlobal>(rt: &R, text: &str, filter: &str) -> io::Result<String> {
    let alloc = rt.alloc();
    let all = text.lines().count();
    if let Some(word) = filter.strip_prefix("grep ") {
        return kept(alloc, text, 0, all, word);
    }
    if let Some(number) = filter.strip_prefix("head -n ") {
        return kept(alloc, text, 0, number.parse().unwrap_or(0), "");
    }
    if let Some(number) = filter.strip_prefix("tail -n ") {
        let number = number.parse().unwrap_or(0);
        return kept(alloc, text, all.saturating_sub(number), all, "");
    }
    if let Some(name) = filter.strip_prefix("diff - ") {
        return difference(rt, text, name);
    }
    Ok(format!(in alloc; "no such filter: {filter}\n")?)
}

/// What `rte` puts for these words, behind a filter if one stands there.
fn of_filtered<R: std::rt::Files + AllocGlobal>(
    rt: &R,
    words: &str,
    status: &mut u8,
) -> io::Result<String> {
    let Some((words, filter)) = words.split_once(" | ") else {
        return of_rte(rt, words, status);
    };
    let put = of_rte(rt, words, status)?;
    filtered(rt, put.as_str(), filter)
}

/// What a command puts. The status of `rte` goes to `status`, from which `echo $?` puts it.
pub fn of<R: std::rt::Files + AllocGlobal>(
    rt: &R,
    command: &str,
    status: &mut u8,
) -> io::Result<String> {
    let alloc = rt.alloc();
    if let Some(name) = command.strip_prefix("cat ") {
        return fs::read_to_string(rt, name);
    }
    if let Some(words) = command.strip_prefix("rte ") {
        return of_filtered(rt, words, status);
    }
    if command == "echo $?" {
        let status = *status;
        return Ok(format!(in alloc; "{status}\n")?);
    }
    Ok(format!(in alloc; "no such command: {command}\n")?)
}
