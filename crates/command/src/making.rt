//! `make`.

ghost use Rattle.std.specs.Prelude.{◌≡◌, ◌≤◌, ◌∷◌, []};
ghost use Rattle.outside.specs.Outside.{outside};
ghost use Rattle.command_answers.specs.Acts.{number_of};
ghost use Rattle.command_answers.specs.Causes.{HasCause};
ghost use Rattle.command_answers.specs.Tried.{HasTried};
ghost use Rattle.command_words.specs.Words.{load_of};
ghost use Rattle.command.specs.Made.{Made};
ghost use Rattle.command.specs.Steps.{GoesOn};
ghost use Rattle.command.specs.Texts.{AreTextsOf};

use crate::summing::{LoadTexts, texts_of};
use command_answers::Status;
use command_words::Load;
use outside::{Files, Sink, WriteFault};
use std::alloc::Global;

/// Stores the script, behind the program, and puts the line.
#[tactic(auto, using(command_answers::proofs::Trying::tried_last, command_answers::proofs::Trying::tried_at_most))]
fn store_script<'a, F: Files, O: Sink>(
    load: &Load<'a>,
    texts: &LoadTexts,
    files: &mut F,
    out: &mut O,
) -> Status<'a>
    requires { AreTextsOf load.now.key load.now.count texts.now }
    ensures goes_on { GoesOn F.tells (load_of load.now) texts.now
        (outside (F.state files.old) (O.state out.old))
        (outside (F.state files.new) (O.state out.new)) (number_of result) }
    ensures cause { HasCause [] (load.now.program.now ∷ load.now.script.now ∷ [])
        (outside (F.state files.old) (O.state out.old))
        (outside (F.state files.new) (O.state out.new)) result }
    ensures reads { (F.state files.new).reads ≡ (F.state files.old).reads }
    ensures writes { HasTried (load.now.script.now ∷ []) (F.state files.old).writes
        (F.state files.new).writes (number_of result) }
{
    match files.write(load.script, texts.script.as_bytes()) {
        Ok(()) => match out.put(texts.summary.as_bytes()) {
            Ok(()) => Status::Done,
            Err(_) => Status::Unput,
        },
        Err(WriteFault::Failed) => Status::Unwritten(load.script),
        Err(WriteFault::Memory(_)) => Status::Memory,
    }
}

/// Makes the load of a key: stores the text of its program, which has so many processes, and then
/// the text of its script, and puts the line that tells how many instructions the program has, how
/// many lines and bytes the log of its run, and the mark of these bytes. The run is made in memory
/// before anything is stored. Where both names are one, the script stands there at the end.
///
/// The answer is `Done`; `Unwritten`, with the name, where a write failed, and `Unput` where the put
/// did, and nothing comes after it; or `Memory`, and then nothing was put, and nothing was stored
/// but the program at most.
#[tactic(auto, using(command_answers::proofs::Trying::tried_on, command_answers::proofs::Trying::tried_first, command_answers::proofs::Trying::tried_at_most))]
pub fn make<'a, F: Files, O: Sink>(
    alloc: Global,
    load: &Load<'a>,
    files: &mut F,
    out: &mut O,
) -> Status<'a>
    requires some { 1 ≤ load.now.count }
    requires few { load.now.count ≤ 64 }
    ensures made { Made F.tells (load_of load.now)
        (outside (F.state files.old) (O.state out.old))
        (outside (F.state files.new) (O.state out.new)) (number_of result) }
    ensures cause { HasCause [] (load.now.program.now ∷ load.now.script.now ∷ [])
        (outside (F.state files.old) (O.state out.old))
        (outside (F.state files.new) (O.state out.new)) result }
    ensures reads { (F.state files.new).reads ≡ (F.state files.old).reads }
    ensures writes { HasTried (load.now.program.now ∷ load.now.script.now ∷ [])
        (F.state files.old).writes (F.state files.new).writes (number_of result) }
{
    let Ok(texts) = texts_of(alloc, load.key, load.count) else {
        return Status::Memory;
    };
    match files.write(load.program, texts.program.as_bytes()) {
        Ok(()) => store_script(load, &texts, files, out),
        Err(WriteFault::Failed) => Status::Unwritten(load.program),
        Err(WriteFault::Memory(_)) => Status::Memory,
    }
}
