//! The messages for logs.

ghost use Rattle.std.specs.Prelude.{◌≡◌, IfOk};
ghost use Rattle.message_log.specs.Log.{fault_message, line_message, log_message, long_message};
ghost use Rattle.message_log.specs.Log.{told_line};

use crate::reasons::reason;
use event_log::LogFault;
use image::ImageNames;
use message_text::{add_head, add_note, add_plain, add_show, is_ended, line};
use out_of_memory::OutOfMemory;
use std::alloc::Global;
use syntax_tree::{Name, Text};

/// The most bytes of a log.
const LONGEST: usize = 67_108_864;

/// The message for a log that has too many bytes.
#[tactic(auto, unfolding(crate::specs::Log::long_message))]
pub fn long_message(alloc: Global, file: &str) -> Result<Text, OutOfMemory>
    ensures { IfOk result (λ message. message ≡ long_message file.now) }
{
    let mut message = Text::new(alloc);
    add_plain(&mut message, file.as_bytes())?;
    message.extend(b": L2: the log has more than 67108864 bytes\n")?;
    Ok(message)
}

/// What is wrong with a line, and the line.
pub(crate) fn told_line(
    alloc: Global,
    file: &str,
    source: &[u8],
    number: usize,
    code: &[u8],
    sentence: &[u8],
) -> Result<Text, OutOfMemory>
    ensures { IfOk result (λ message.
        message ≡ told_line file.now source.now number code.now sentence.now) }
{
    let mut message = Text::new(alloc);
    add_head(&mut message, file.as_bytes(), number, 1, code, &[sentence])?;
    add_show(&mut message, source, number, 1, 0)?;
    Ok(message)
}

/// The message for a line that is the text of no event.
fn line_message(
    alloc: Global,
    file: &str,
    source: &[u8],
    processes: &[Name],
    number: usize,
) -> Result<Text, OutOfMemory>
    ensures { IfOk result (λ message.
        message ≡ line_message file.now source.now processes.now number) }
{
    let sentence = b"this line is the text of no event of the program";
    let mut message = told_line(alloc, file, source, number, b"L1", sentence)?;
    let shown = line(source, number);
    let reason = reason(alloc, processes, shown, is_ended(source, number))?;
    add_note(&mut message, &[reason.as_bytes()])?;
    Ok(message)
}

/// The message for a fault of a log that is not too long.
fn fault_message(
    alloc: Global,
    file: &str,
    text: &[u8],
    names: &ImageNames,
    fault: &LogFault,
) -> Result<Text, OutOfMemory>
    ensures { IfOk result (λ message.
        message ≡ fault_message file.now text.now names.now fault.now) }
{
    match fault {
        LogFault::Line(number) => {
            let processes = names.processes.as_slice();
            line_message(alloc, file, text, processes, *number as usize)
        }
        LogFault::Long => long_message(alloc, file),
        LogFault::Memory(_) => Ok(Text::new(alloc)),
    }
}

/// The message for a text that is no log of a program with these names: the file and the line of
/// the fault; the line; and why it is the text of no event. Nothing is told of want of memory.
#[tactic(auto, unfolding(crate::specs::Log::log_message))]
pub fn log_message(
    alloc: Global,
    file: &str,
    text: &[u8],
    names: &ImageNames,
    fault: &LogFault,
) -> Result<Text, OutOfMemory>
    ensures { IfOk result (λ message.
        message ≡ log_message file.now text.now names.now fault.now) }
{
    if text.len() > LONGEST {
        return long_message(alloc, file);
    }
    fault_message(alloc, file, text, names, fault)
}
