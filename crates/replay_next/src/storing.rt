//! Stores, and the variables beside its own that a function changes: what it changes of them is
//! dropped when it is over, so they are kept as they were.

ghost use Rattle.std.specs.Prelude.{◌≡◌, IfOk, OnOk, cond, is_some};
ghost use Rattle.source_semantics.specs.Run as run_of;
ghost use Rattle.source_semantics.specs.Store.{slot_named};
ghost use Rattle.replay_state.specs.View.{home_of, target_of, vars_of};
ghost use Rattle.replay_calls.specs.Reach.{area_of, memory_of};
ghost use Rattle.replay_calls.specs.Seen.{answer_of};
ghost use Rattle.replay_next.specs.Driving.{IsGuarded, others_of};
ghost use Rattle.replay_next.specs.Ran.{ran_of};

use crate::remains::Beside;
use crate::results::RunResult;
use out_of_memory::OutOfMemory;
use replay_calls::{Answer, CowSlots, Memory, slots_copied, store_to};
use replay_state::{CallOwner, Target};
use std::alloc::Global;
use std::mem;
use syntax_tree::Name;

/// Whether a call has a variable of that name of its own.
fn is_own(memory: &Memory<'_, '_>, name: &Name) -> bool
    ensures { result ≡ is_some (slot_named name.now (memory_of memory.now).own) }
{
    memory.slot_in(CallOwner::Program, name).is_some()
}

/// The area as it is, which keeps a copy of its variables.
fn area_aside<'s, 'a>(
    alloc: Global,
    area: &mut CowSlots<'s, 'a>,
) -> Result<CowSlots<'s, 'a>, OutOfMemory>
    ensures aside { IfOk result (λ aside. area_of aside ≡ area_of area.old) }
    ensures same { OnOk result (area_of area.new ≡ area_of area.old) }
{
    let copy = slots_copied(alloc, area.as_slice())?;
    let kept = mem::replace(&mut area.kept, Some(copy));
    Ok(CowSlots {
        lent: area.lent,
        kept,
    })
}

/// The variables beside a call's own as they are, copies of which stay in reach.
fn set_aside<'s, 'a>(
    alloc: Global,
    memory: &mut Memory<'s, 'a>,
) -> Result<Beside<'s, 'a>, OutOfMemory>
    ensures process { IfOk result (λ b. area_of b.process ≡ area_of memory.old.process) }
    ensures monitor { IfOk result (λ b. area_of b.monitor ≡ area_of memory.old.monitor) }
    ensures same { OnOk result (memory_of memory.new ≡ memory_of memory.old) }
{
    let process = area_aside(alloc, &mut memory.process)?;
    let monitor = area_aside(alloc, &mut memory.monitor)?;
    Ok(Beside { process, monitor })
}

/// The variables beside its own are those of a function's caller again.
pub fn back_beside<'s, 'a>(
    memory: &mut Memory<'s, 'a>,
    kept: &mut Option<Beside<'s, 'a>>,
    before: Option<Beside<'s, 'a>>,
)
    ensures process { area_of memory.new.process ≡ (others_of kept.old memory.old).process }
    ensures monitor { area_of memory.new.monitor ≡ (others_of kept.old memory.old).monitor }
    ensures own { vars_of memory.new.own.items ≡ vars_of memory.old.own.items }
    ensures kept { kept.new ≡ before.entry }
{
    if let Some(beside) = mem::replace(kept, before) {
        memory.process = beside.process;
        memory.monitor = beside.monitor;
    }
}

/// Before a store to this variable: if it is none of the call's own, all of those are kept as they
/// are, unless they were before.
fn guard<'s, 'a>(
    alloc: Global,
    memory: &mut Memory<'s, 'a>,
    kept: &mut Option<Beside<'s, 'a>>,
    name: &Name,
) -> Result<(), OutOfMemory>
    ensures same { OnOk result (memory_of memory.new ≡ memory_of memory.old) }
    ensures others { OnOk result (others_of kept.new memory.new ≡ others_of kept.old memory.old) }
    ensures guarded { OnOk result (IsGuarded kept.new name.now (memory_of memory.new).own) }
{
    if kept.is_some() || is_own(memory, name) {
        return Ok(());
    }
    let aside = set_aside(alloc, memory)?;
    *kept = Some(aside);
    Ok(())
}

/// What a store came to: the exception of range and index, where it was refused.
fn after_store<'a>(done: bool) -> RunResult<'a>
    ensures { (m : run_of.Memory) → ran_of result m ≡
        cond done (run_of.goes m) (run_of.fails 3 m) }
{
    if done {
        RunResult::Goes
    } else {
        RunResult::Fails(3)
    }
}

/// An assignment to a variable.
pub fn store<'s, 'a>(
    alloc: Global,
    home: CallOwner,
    memory: &mut Memory<'s, 'a>,
    kept: &mut Option<Beside<'s, 'a>>,
    target: Target<'a>,
    answer: Answer,
) -> Result<RunResult<'a>, OutOfMemory>
    ensures run { IfOk result (λ ran. ran_of ran (memory_of memory.new) ≡
        run_of.with_value (answer_of answer) (memory_of memory.old) (λ v.
        run_of.store_to (home_of home) (memory_of memory.old) (target_of target.entry) v)) }
    ensures others { OnOk result (others_of kept.new memory.new ≡ others_of kept.old memory.old) }
{
    match answer {
        Answer::Raised(number) => Ok(RunResult::Fails(number)),
        Answer::Word(value) => {
            guard(alloc, memory, kept, target.name)?;
            let done = store_to(alloc, memory, home, target, value)?;
            Ok(after_store(done))
        }
    }
}
