//! The messages of calls that the outside ended.
//!
//! The family Messages: what a call that fails tells the one who made it. A file that cannot be
//! read or written is named as the call has it; standard output that takes no more and memory that
//! is at its end are told in a line of their own.
//!
//! `specs/Failure.antt` defines the four messages, and each call gives exactly its message. The
//! only error is want of memory; the two messages without a name ask for none.

ghost use Rattle.std.specs.Prelude.{◌≡◌, IfOk};
ghost use Rattle.message_words.specs.Failure.{cannot_put, cannot_read, cannot_write};
ghost use Rattle.message_words.specs.Failure.{out_of_memory};

use message_text::add_plain;
use out_of_memory::OutOfMemory;
use std::alloc::Global;
use syntax_tree::Text;

/// Tells that a file of this name cannot be read.
pub fn cannot_read(alloc: Global, name: &str) -> Result<Text, OutOfMemory>
    ensures { IfOk result (λ text. text ≡ cannot_read name.now) }
{
    let mut text = Text::from_bytes(alloc, b"rte: cannot read ")?;
    add_plain(&mut text, name.as_bytes())?;
    text.extend(b"\n")?;
    Ok(text)
}

/// Tells that a file of this name cannot be written.
pub fn cannot_write(alloc: Global, name: &str) -> Result<Text, OutOfMemory>
    ensures { IfOk result (λ text. text ≡ cannot_write name.now) }
{
    let mut text = Text::from_bytes(alloc, b"rte: cannot write ")?;
    add_plain(&mut text, name.as_bytes())?;
    text.extend(b"\n")?;
    Ok(text)
}

/// Tells that standard output takes no more.
pub fn cannot_put() -> &'static [u8]
    ensures { result.now ≡ cannot_put }
{
    b"rte: cannot put to standard output\n"
}

/// Tells that there is no memory left.
pub fn out_of_memory() -> &'static [u8]
    ensures { result.now ≡ out_of_memory }
{
    b"rte: out of memory\n"
}
