//! Acts.

ghost use Rattle.std.specs.Prelude.{◌≡◌, ◌≢◌, IfOk};
ghost use Rattle.command_due.specs.Source.{fault_line};
ghost use Rattle.command_answers.specs.Acting.{puts};
ghost use Rattle.command_answers.specs.Acts.{number_of};

use crate::{PreparedCall, Status, fault_line};
use out_of_memory::OutOfMemory;
use std::alloc::Global;
use syntax_tree::{Place, Text};

/// The act that puts a text, and stores and runs nothing.
pub fn put<'a>(status: Status<'a>, text: Text) -> PreparedCall<'a>
    ensures { result ≡ puts status.entry text }
{
    PreparedCall {
        status,
        text,
        store: None,
        run: None,
    }
}

/// The act for a text that is no program text, or whose program is too large: it puts the line of
/// its fault.
pub fn put_fault<'a>(
    alloc: Global,
    number: u8,
    place: Place,
) -> Result<PreparedCall<'a>, OutOfMemory>
    ensures act { IfOk result (λ act. act ≡ puts Status.Text (fault_line number place)) }
    ensures refused { IfOk result (λ act. number_of act.status ≢ 0) }
{
    Ok(put(Status::Text, fault_line(alloc, number, place)?))
}
