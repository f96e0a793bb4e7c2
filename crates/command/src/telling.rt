//! The message for a person.

ghost use Rattle.std.specs.Prelude.{◌≡◌, ◌≢◌, [], IfErr, IfOk};
ghost use Rattle.message_words.specs.Failure.{out_of_memory};
ghost use Rattle.command.specs.Told.{HasMessage, HasPut, HasTold, IsOwnMessage, message_of};

use command_answers::Status;
use message_words::{cannot_put, cannot_read, cannot_write, out_of_memory, usage};
use out_of_memory::OutOfMemory;
use outside::Sink;
use std::alloc::Global;
use syntax_tree::Text;

/// The message of the status of a call of these words, which is this one where what a file holds was
/// refused; empty where there is none.
fn message(
    alloc: Global,
    words: &[String],
    refusal: Text,
    status: Status<'_>,
) -> Result<Text, OutOfMemory>
    ensures text { IfOk result (λ text. text ≡ message_of words.now refusal status.entry) }
    ensures some { IfErr result (λ why. IsOwnMessage status.entry) }
{
    match status {
        Status::Usage => usage(alloc, words),
        Status::Unread(name) => cannot_read(alloc, name),
        Status::Unwritten(name) => cannot_write(alloc, name),
        Status::Unput => Text::from_bytes(alloc, cannot_put()),
        Status::Memory => Text::from_bytes(alloc, out_of_memory()),
        Status::Text | Status::Late | Status::Image | Status::Script | Status::Log => Ok(refusal),
        Status::Done => Ok(Text::new(alloc)),
    }
}

/// Puts a piece by one put, unless it is empty. What the put answers is not looked at.
#[tactic(auto, using(crate::proofs::Putting::nothing_put, crate::proofs::Putting::piece_put))]
fn put<E: Sink>(piece: &[u8], err: &mut E)
    ensures put { HasPut piece.now (E.state err.old) (E.state err.new) }
    ensures nothing { piece.now ≡ [] → E.state err.new ≡ E.state err.old }
{
    if piece.is_empty() {
        return;
    }
    let _ = err.put(piece);
}

/// The status of a call whose words could not be had for want of memory; its message is put.
pub fn words_are_short<E: Sink>(err: &mut E) -> Status<'static>
    ensures status { result ≡ Status.Memory }
    ensures told { HasPut out_of_memory (E.state err.old) (E.state err.new) }
{
    put(out_of_memory(), err);
    Status::Memory
}

/// Puts the message of the status, by one put: that of words that are no call, or that the outside
/// failed, where there is not enough memory for it the one that says so; or the given one, where
/// what a file holds was refused. Where there is none nothing is put.
#[tactic(auto, using(crate::proofs::Putting::told_by))]
pub fn tell<E: Sink>(
    alloc: Global,
    words: &[String],
    refusal: Text,
    status: Status<'_>,
    err: &mut E,
)
    ensures { HasTold words.now refusal status.entry (E.state err.old) (E.state err.new) }
{
    match message(alloc, words, refusal, status) {
        Ok(text) => put(text.as_bytes(), err),
        Err(_) => put(out_of_memory(), err),
    }
}
