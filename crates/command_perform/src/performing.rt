//! Performing.

ghost use Rattle.std.specs.Prelude.{◌≡◌, ◌≢◌, ◌++◌, [], IfOk, IfSome, IsSome, IsSomeAnd, OnOk, OnErr};
ghost use Rattle.out_of_memory.specs.Refused.{refused};
ghost use Rattle.outside.specs.Outside.{outside, AllStay, Appends, AppendsFront, Rose};
ghost use Rattle.command_answers.specs.Acts.{CanRun, log_due, number_of};
ghost use Rattle.command_answers.specs.Causes.{HasCause};
ghost use Rattle.command_answers.specs.Went.{IsAnswer};
ghost use Rattle.command_perform.specs.Performed.{OthersKept, Performed, StoresIt, WritesIt, targets};
ghost use Rattle.command_perform.specs.Ready.{IsReady, run_of};

use crate::ready::Ready;
use command_answers::{PreparedCall, PreparedRun, Status, Store};
use out_of_memory::OutOfMemory;
use outside::{Files, Sink, WriteFault};
use std::alloc::Global;
use vm_run::OutputCut;

/// Makes the run ready, if there is one.
fn make_ready(alloc: Global, run: &Option<PreparedRun>) -> Result<Option<Ready<'_>>, OutOfMemory>
    requires { IfSome run.now CanRun }
    ensures run { IfOk result (λ ready. run_of ready ≡ run.now) }
    ensures ready { IfOk result (λ ready. IfSome ready IsReady) }
{
    match run {
        Some(run) => Ok(Some(Ready::new(alloc, run)?)),
        None => Ok(None),
    }
}

/// Stores the image, if there is one.
fn store<F: Files>(image: &Option<Store<'_>>, files: &mut F) -> Result<(), WriteFault>
    ensures stored { OnOk result
        (StoresIt F.tells image.now (F.state files.old).held (F.state files.new).held) }
    ensures failed { result ≡ Err WriteFault.Failed → IsSomeAnd image.now (λ s.
        Rose ((F.state files.old).write_faults s.name.now)
        ((F.state files.new).write_faults s.name.now)) }
    ensures kept { result ≡ Err (WriteFault.Memory refused) →
        AllStay (F.state files.old).held (F.state files.new).held }
    ensures others { OthersKept image.now (F.state files.old).held (F.state files.new).held }
    ensures reads { (F.state files.new).reads ≡ (F.state files.old).reads }
    ensures written { WritesIt image.now (F.state files.old).writes (F.state files.new).writes }
{
    match image {
        Some(image) => files.write(image.name, image.bytes.as_slice()),
        None => Ok(()),
    }
}

/// The status of a write that failed.
fn unwritten<'a>(image: &Option<Store<'a>>) -> Status<'a>
    requires { IsSome image.now }
    ensures number { number_of result ≡ 7 }
    ensures name { IsSomeAnd image.now (λ s. result ≡ Status.Unwritten s.name) }
{
    match image {
        Some(image) => Status::Unwritten(image.name),
        None => unreachable!(),
    }
}

/// Puts a text, unless it is empty.
fn put_text<O: Sink>(text: &[u8], out: &mut O) -> Result<(), OutputCut>
    ensures whole { OnOk result (Appends (O.state out.old).taken (O.state out.new).taken text.now) }
    ensures front { OnErr result (AppendsFront (O.state out.old).taken
        (O.state out.new).taken text.now) }
    ensures some { OnErr result (text.now ≢ []) }
    ensures failed { OnErr result (Rose (O.state out.old).faults (O.state out.new).faults) }
    ensures quiet { OnOk result ((O.state out.new).faults ≡ (O.state out.old).faults) }
{
    if text.is_empty() {
        return Ok(());
    }
    match out.put(text) {
        Ok(()) => Ok(()),
        Err(_) => Err(OutputCut),
    }
}

/// Puts the text, and then the log of the run, one put a line. After a failed put nothing more is
/// put.
fn tell<O: Sink>(text: &[u8], run: Option<Ready<'_>>, out: &mut O) -> Result<(), OutputCut>
    requires { IfSome run IsReady }
    ensures whole { OnOk result (Appends (O.state out.old).taken (O.state out.new).taken
        (text.now ++ log_due (run_of run.entry))) }
    ensures front { OnErr result (AppendsFront (O.state out.old).taken (O.state out.new).taken
        (text.now ++ log_due (run_of run.entry))) }
    ensures some { OnErr result (text.now ++ log_due (run_of run.entry) ≢ []) }
    ensures failed { OnErr result (Rose (O.state out.old).faults (O.state out.new).faults) }
    ensures quiet { OnOk result ((O.state out.new).faults ≡ (O.state out.old).faults) }
{
    put_text(text, out)?;
    match run {
        Some(mut run) => run.put_log(out),
        None => Ok(()),
    }
}

/// Stores the image of the act, puts its text, unless it is empty, and then the log of its run, one
/// put a line. No file is read, and that of the image is written once. The answer is the act's
/// status; `Unwritten`, with the name, where the write failed, and `Unput` where a put failed, and
/// nothing is put after that; `Memory` where there is not enough memory for the machine or for the
/// write, and then nothing was stored or put.
#[tactic(auto, using(command_answers::proofs::Caused::answers_have_cause))]
pub fn perform<'a, F: Files, O: Sink>(
    alloc: Global,
    act: &PreparedCall<'a>,
    files: &mut F,
    out: &mut O,
) -> Status<'a>
    requires runs { IfSome act.now.run CanRun }
    requires status { IsAnswer (number_of act.now.status) }
    ensures performed { Performed F.tells act.now
        (outside (F.state files.old) (O.state out.old))
        (outside (F.state files.new) (O.state out.new)) (number_of result) }
    ensures cause { HasCause [] (targets act.now.store)
        (outside (F.state files.old) (O.state out.old))
        (outside (F.state files.new) (O.state out.new)) result }
{
    let run = match make_ready(alloc, &act.run) {
        Ok(run) => run,
        Err(_) => return Status::Memory,
    };
    match store(&act.store, files) {
        Ok(()) => match tell(act.text.as_bytes(), run, out) {
            Ok(()) => act.status,
            Err(_) => Status::Unput,
        },
        Err(WriteFault::Failed) => unwritten(&act.store),
        Err(WriteFault::Memory(_)) => Status::Memory,
    }
}
