//! The call, without what the laws say of it.

ghost use Rattle.std.specs.Prelude.{◌≡◌, ◌≢◌, ◌≤◌, ◌<◌, ◌⊎◌, ℕ, List, [], Some, codes};
ghost use Rattle.outside.specs.Outside.{outside, AllStay, Appends, AppendsFront, FilesState, Rose};
ghost use Rattle.command_words.specs.Calls.{Call, Load, over_of};
ghost use Rattle.command_words.specs.Words.{call_of, IsCommand, IsMake};
ghost use Rattle.command_answers.specs.Acts.{number_of};
ghost use Rattle.command_answers.specs.Causes.{HasCause};
ghost use Rattle.command_answers.specs.Files.{listed, sources_of, target_of};
ghost use Rattle.command_answers.specs.Tried.{HasTried, HasTriedTarget};
ghost use Rattle.command_answers.specs.Went.{Went, IsUsage};
ghost use Rattle.command.specs.Made.{Made};
ghost use Rattle.std.specs.Bool.{OnTrue};
ghost use Rattle.command.specs.Explained.{IsToldRight};
ghost use Rattle.command.specs.Told.{IsRefusal};
ghost use Rattle.command.specs.Targets.{IsNoTarget};
ghost use Rattle.command.specs.Tried.{HasEnded, HasRead, HasWritten};

use crate::{make, prepare};
use command_answers::{PrepareError, Status};
use command_perform::perform;
use command_words::words::{no_command_is_a_load, one_command, one_load};
use command_words::{Command, Request, read_words};
use outside::{Files, Sink};
use std::alloc::Global;
use syntax_tree::Text;

/// Puts the usage.
fn usage<'a, O: Sink>(out: &mut O) -> Status<'a>
    ensures answer { ((number_of result ≡ 1) ×
        Appends (O.state out.old).taken (O.state out.new).taken (codes "usage\n"))
        ⊎ ((number_of result ≡ 7) × Rose (O.state out.old).faults (O.state out.new).faults
        × AppendsFront (O.state out.old).taken (O.state out.new).taken (codes "usage\n")) }
    ensures cause { (before now : FilesState) → HasCause [] []
        (outside before (O.state out.old)) (outside now (O.state out.new)) result }
    ensures quiet { number_of result ≢ 7 → (O.state out.new).faults ≡ (O.state out.old).faults }
{
    match out.put(b"usage\n") {
        Ok(()) => Status::Usage,
        Err(_) => Status::Unput,
    }
}

/// Prepares what is due of a command, and performs it.
fn carry<'a, F: Files, O: Sink>(
    alloc: Global,
    message: &mut Text,
    command: &Command<'a>,
    files: &mut F,
    out: &mut O,
) -> Status<'a>
    requires { over_of (call_of command.now) ≤ 1000 }
    ensures went { Went F.tells (call_of command.now)
        (outside (F.state files.old) (O.state out.old))
        (outside (F.state files.new) (O.state out.new)) (number_of result) }
    ensures cause { HasCause (sources_of (call_of command.now))
        (listed (target_of (call_of command.now)))
        (outside (F.state files.old) (O.state out.old))
        (outside (F.state files.new) (O.state out.new)) result }
    ensures reads { HasTried (sources_of (call_of command.now)) (F.state files.old).reads
        (F.state files.new).reads (number_of result) }
    ensures writes { HasTriedTarget (target_of (call_of command.now)) (F.state files.old).writes
        (F.state files.new).writes (number_of result) }
    ensures told { OnTrue F.tells (IsRefusal result → IsToldRight (call_of command.now)
        (outside (F.state files.old) (O.state out.old))
        (outside (F.state files.new) (O.state out.new)) (number_of result) message.new) }
{
    match prepare(alloc, message, command, files) {
        Ok(act) => perform(alloc, &act, files, out),
        Err(PrepareError::Unread(name)) => Status::Unread(name),
        Err(PrepareError::Memory(_)) => Status::Memory,
    }
}

/// Does what the words ask.
pub fn carry_out<'a, F: Files, O: Sink>(
    alloc: Global,
    message: &mut Text,
    words: &'a [String],
    files: &mut F,
    out: &mut O,
) -> Status<'a>
    ensures went { (call : Call) → IsCommand words.now call → Went F.tells call
        (outside (F.state files.old) (O.state out.old))
        (outside (F.state files.new) (O.state out.new)) (number_of result) }
    ensures made { (load : Load) → IsMake words.now load → Made F.tells load
        (outside (F.state files.old) (O.state out.old))
        (outside (F.state files.new) (O.state out.new)) (number_of result) }
    ensures usage { ((call : Call) → ¬ IsCommand words.now call) →
        ((load : Load) → ¬ IsMake words.now load) → IsUsage
        (outside (F.state files.old) (O.state out.old))
        (outside (F.state files.new) (O.state out.new)) (number_of result) }
    ensures kept { ((load : Load) → ¬ IsMake words.now load) → 0 < number_of result →
        number_of result ≢ 7 → AllStay (F.state files.old).held (F.state files.new).held }
    ensures others { (name : List ℕ) → IsNoTarget words.now name →
        (F.state files.new).held name ≡ (F.state files.old).held name }
    ensures quiet { number_of result ≢ 7 → (O.state out.new).faults ≡ (O.state out.old).faults }
    ensures cause { HasEnded words.now (outside (F.state files.old) (O.state out.old))
        (outside (F.state files.new) (O.state out.new)) result }
    ensures reads { HasRead words.now (F.state files.old).reads (F.state files.new).reads
        (number_of result) }
    ensures writes { HasWritten words.now (F.state files.old).writes (F.state files.new).writes
        (number_of result) }
    ensures told { (call : Call) → IsCommand words.now call → OnTrue F.tells (IsRefusal result →
        IsToldRight call (outside (F.state files.old) (O.state out.old))
        (outside (F.state files.new) (O.state out.new)) (number_of result) message.new) }
{
    one_command();
    one_load();
    no_command_is_a_load();
    match read_words(words) {
        Some(Request::Command(command)) => carry(alloc, message, &command, files, out),
        Some(Request::Load(load)) => make(alloc, &load, files, out),
        None => usage(out),
    }
}
