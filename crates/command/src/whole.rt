//! A call whole, over a sink that is written through a buffer.

ghost use Rattle.std.specs.Prelude.{◌≡◌, ◌≢◌, ◌<◌, ◌↔◌, ◌⊎◌, ℕ, List, Some, None, true, false};
ghost use Rattle.std.specs.Bool.{OnTrue};
ghost use Rattle.outside.specs.Outside.{outside, AllStay};
ghost use Rattle.command_words.specs.Calls.{Call, Load};
ghost use Rattle.command_words.specs.Calls as call;
ghost use Rattle.command_words.specs.Words.{IsCommand, IsMake};
ghost use Rattle.command_answers.specs.Acts.{number_of};
ghost use Rattle.command_answers.specs.Files.{IsDue};
ghost use Rattle.command_answers.specs.Went.{Went, Completes, IsUsage};
ghost use Rattle.command_answers.specs.Promise.{HasDone, IsRefusedForTime};
ghost use Rattle.command_due.specs.CommandsDue.{Outcome};
ghost use Rattle.command.specs.Made.{Made};
ghost use Rattle.command.specs.Targets.{IsNoTarget};
ghost use Rattle.command.specs.Tried.{HasEnded, HasRead, HasWritten};
ghost use Rattle.command.specs.Settled.{CauseStands, HasTakenNothing, IsSettled};
ghost use Rattle.command.specs.Tabled.{TellsTable};
ghost use Rattle.command.specs.Informed.{HasInformed};

use crate::rte;
use crate::telling::tell;
use command_answers::Status;
use outside::{Buffered, Files, Sink};
use std::alloc::Global;
use syntax_tree::Text;
use table_law::agree_law::{
    table_blocks, table_bounds, table_ceilings, table_in_time, table_ranks,
};
use table_law::{table_costs, table_text_is_written};

/// Whether the status says that nothing was put.
fn puts_nothing(status: Status<'_>) -> bool
    ensures yes { result ≡ true → (number_of status.entry ≡ 6) ⊎ (number_of status.entry ≡ 8) }
    ensures no { result ≡ false → (number_of status.entry ≢ 6) × (number_of status.entry ≢ 8) }
{
    matches!(status, Status::Unread(_) | Status::Memory)
}

/// Writes what waits to the sink below, and gives that back with the status that the call then has.
/// Where nothing was put, nothing waits.
fn settle<'a, S: Sink>(status: Status<'a>, out: Buffered<S>) -> (Status<'a>, S)
    ensures settled { IsSettled (⟦<Buffered<S> as Sink>⟧.state out) (S.state result.1)
        (number_of status.entry) (number_of result.0) }
    ensures cause { CauseStands (⟦<Buffered<S> as Sink>⟧.state out) (S.state result.1)
        status.entry result.0 }
{
    if puts_nothing(status) {
        return (status, out.into_sink());
    }
    let (written, sink) = out.finish();
    match written {
        Ok(()) => (status, sink),
        Err(_) => (Status::Unput, sink),
    }
}

/// Does what the words ask, as `rte`, and gives the sink back with the status. What is put
/// waits in a buffer of 65,536 bytes, and is written at the end; where that fails the status is 7.
/// The sink has taken nothing yet, where it tells. Last, `err` gets the message for a person, with
/// every status but 0; whether it takes it is not looked at.
pub fn whole_call<'a, F: Files, S: Sink, E: Sink>(
    alloc: Global,
    words: &'a [String],
    files: &mut F,
    sink: S,
    err: &mut E,
) -> (Status<'a>, S)
    requires nothing { HasTakenNothing (S.state sink).taken }
    // A call of a command went as is due, by what its files hold.
    ensures went { (call : Call) → IsCommand words.now call → Went F.tells call
        (outside (F.state files.old) (S.state sink))
        (outside (F.state files.new) (S.state result.1)) (number_of result.0) }
    // Where no failure is counted, what is due is done whole, or the status is 8.
    ensures complete { (call : Call) → IsCommand words.now call → OnTrue F.tells (Completes call
        (outside (F.state files.old) (S.state sink))
        (outside (F.state files.new) (S.state result.1)) (number_of result.0)) }
    // So did `make`: its status is 0, 7 or 8.
    ensures made { (load : Load) → IsMake words.now load → Made F.tells load
        (outside (F.state files.old) (S.state sink))
        (outside (F.state files.new) (S.state result.1)) (number_of result.0) }
    // All other words are refused.
    ensures usage { ((call : Call) → ¬ IsCommand words.now call) →
        ((load : Load) → ¬ IsMake words.now load) → IsUsage
        (outside (F.state files.old) (S.state sink))
        (outside (F.state files.new) (S.state result.1)) (number_of result.0) }
    // Of every call but `make`: with a status but 0 and 7 no file has changed. Of every call: no
    // file changes but those that are written.
    ensures kept { ((load : Load) → ¬ IsMake words.now load) → 0 < number_of result.0 →
        number_of result.0 ≢ 7 → AllStay (F.state files.old).held (F.state files.new).held }
    ensures others { (name : List ℕ) → IsNoTarget words.now name →
        (F.state files.new).held name ≡ (F.state files.old).held name }
    // Where no image is due no file changes.
    ensures refused { (call : Call) → IsCommand words.now call →
        OnTrue F.tells ((outcome : Outcome) →
        IsDue call (F.state files.old).held outcome → outcome.image ≡ None →
        AllStay (F.state files.old).held (F.state files.new).held) }
    // So once a file has changed, the status is 0 or 7, but of `make`.
    ensures stored { ((load : Load) → ¬ IsMake words.now load) → (name : List ℕ) →
        (F.state files.new).held name ≢ (F.state files.old).held name →
        (number_of result.0 ≡ 0) ⊎ (number_of result.0 ≡ 7) }
    // With a status but 7 the sink's count of faults is what it was.
    ensures quiet { number_of result.0 ≢ 7 → (S.state result.1).faults ≡ (S.state sink).faults }
    // A file that failed is one that the words let the call read, or write, and the status names it.
    ensures cause { HasEnded words.now (outside (F.state files.old) (S.state sink))
        (outside (F.state files.new) (S.state result.1)) result.0 }
    // The other sink got the message of the status: with 1 what is wrong with the words, and the
    // usage; with 6 and 7 which file failed, or that the output did; with 8 that memory is wanting;
    // with 2, 4, 5 and 9 the message of the fault whose line was put, with 3 that of the lateness,
    // where the files tell. With 1, 6 and 7 the line for memory may stand in its place. With status 0
    // nothing was put there.
    ensures told { HasInformed F.tells words.now (outside (F.state files.old) (S.state sink))
        (outside (F.state files.new) (S.state result.1)) result.0 (E.state err.old)
        (E.state err.new) }
    // Each file that the words name is read at most once, in the order of the steps, and no other;
    // with status 0 all that are to be read.
    ensures reads { HasRead words.now (F.state files.old).reads (F.state files.new).reads
        (number_of result.0) }
    // Each that is to be written is written at most once, and no other; but of `make` only with
    // status 0, 7 and 8.
    ensures writes { HasWritten words.now (F.state files.old).writes (F.state files.new).writes
        (number_of result.0) }
    // Status 0: as of `rte`, and the sink has taken all that is due.
    ensures done { (call : Call) → IsCommand words.now call →
        OnTrue F.tells (number_of result.0 ≡ 0 → HasDone call
        (outside (F.state files.old) (S.state sink))
        (outside (F.state files.new) (S.state result.1))) }
    // Status 0 of `table`: what is stored is the canonical text of a program, with the ranks, ceilings,
    // blocks and bounds of the table, told of the table alone.
    ensures numbers { (tasks program : List ℕ) → IsCommand words.now (call.table tasks program) →
        OnTrue F.tells (number_of result.0 ≡ 0 → TellsTable tasks program
        (outside (F.state files.old) (S.state sink))
        (outside (F.state files.new) (S.state result.1))) }
    // Status 3 as of `rte`.
    ensures late { (call : Call) → IsCommand words.now call → OnTrue F.tells (number_of result.0 < 6 →
        (number_of result.0 ≡ 3) ↔ IsRefusedForTime call
        (outside (F.state files.old) (S.state sink))) }
{
    table_costs();
    table_ranks();
    table_ceilings();
    table_blocks();
    table_in_time();
    table_bounds();
    table_text_is_written();
    let mut out = Buffered::new(alloc, sink);
    let mut refusal = Text::new(alloc);
    let status = rte(alloc, words, files, &mut out, &mut refusal);
    let (status, sink) = settle(status, out);
    tell(alloc, words, refusal, status, err);
    (status, sink)
}
