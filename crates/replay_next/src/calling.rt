//! Routines that are called.

ghost use Rattle.std.specs.Prelude.{◌≡◌, IfOk, option_map};
ghost use Rattle.syntax_tree.specs.Placed.{placed, placed_routine, plain, plain_routine};
ghost use Rattle.source_semantics.specs.Run as run_of;
ghost use Rattle.replay_state.specs.View.{answers_of, call_of, home_of, target_of, vars_of};
ghost use Rattle.replay_calls.specs.Lookups.{found_of};
ghost use Rattle.replay_next.specs.Ran.{ran_of, receiving};

use crate::results::{RunResult, Stop, stopped_in};
use out_of_memory::OutOfMemory;
use replay_calls::{EvalContext, ResolvedRoutine, add_fresh, home_in};
use replay_state::{Action, Call, CallOwner, Item, ResultExpr, Slot, Target};
use static_declarations::Declarations;
use std::alloc::Global;
use std::mem;
use syntax_tree::{List, Routine, Stmt};

/// The statements of a list.
pub fn statements(list: &List<Stmt>) -> &[Stmt]
    ensures { result.now ≡ list.now }
{
    list.as_slice()
}

/// The type and the expression of a routine's result, where it has one.
pub fn answering<'a>(routine: &'a Routine) -> Option<ResultExpr<'a>>
    ensures { option_map answers_of result ≡ (plain_routine (placed_routine routine.now)).answers }
{
    match &routine.result {
        None => None,
        Some(kind) => match &routine.value {
            None => None,
            Some(value) => Some(ResultExpr { kind, value }),
        },
    }
}

/// The variables of a call: its parameters, and then the others as they start.
pub fn own_vars<'a>(
    alloc: Global,
    declarations: &Declarations<'_>,
    routine: &'a Routine,
    params: Vec<Slot<'a>>,
) -> Result<Vec<Slot<'a>>, OutOfMemory>
    ensures { IfOk result (λ own. vars_of own.items ≡
        run_of.own_vars (plain (placed declarations.now))
        (plain_routine (placed_routine routine.now)) (vars_of params.entry.items)) }
{
    let mut own = params;
    add_fresh(alloc, declarations, &mut own, routine.vars.as_slice())?;
    Ok(own)
}

/// The call of an entry before its first statement.
fn entry_call<'a>(
    alloc: Global,
    found: &ResolvedRoutine<'a>,
    mon: usize,
    own: Vec<Slot<'a>>,
) -> Result<Call<'a>, OutOfMemory>
    ensures { IfOk result (λ call. call_of call ≡
        run_of.entry_call (found_of found.now) mon (vars_of own.entry.items)) }
{
    let mut rest = Vec::new(alloc);
    rest.push(Item::DoAll(statements(&found.routine.body)))?;
    rest.push(Item::LeaveWith {
        answers: answering(found.routine),
        mon,
    })?;
    Ok(Call {
        home: home_in(found.home),
        own,
        rest,
    })
}

/// A call of an entry, all arguments bound; its answer, if any, is to be stored.
pub fn entered<'a>(
    scope: &EvalContext<'a>,
    found: &ResolvedRoutine<'a>,
    mon: usize,
    params: Vec<Slot<'a>>,
    target: Option<Target<'a>>,
) -> Result<RunResult<'a>, OutOfMemory>
    ensures { IfOk result (λ ran. (c : run_of.Site) (m : run_of.Memory) →
        c.program ≡ plain (placed scope.now.declarations.now) → ran_of ran m ≡
        run_of.entered c m (found_of found.now) mon (run_of.bound (vars_of params.entry.items))
        (receiving (option_map target_of target.entry))) }
{
    let own = own_vars(scope.alloc, scope.declarations, found.routine, params)?;
    let mut inside = Vec::new(scope.alloc);
    inside.push(entry_call(scope.alloc, found, mon, own)?)?;
    let mut rest = Vec::new(scope.alloc);
    if let Some(target) = target {
        rest.push(Item::Receive(target))?;
    }
    Ok(RunResult::Stops(Stop {
        action: Action::Enters { mon },
        inside,
        rest,
    }))
}

/// What a procedure came to as a part of its caller, whose variables come back.
pub fn given_back<'a>(
    alloc: Global,
    home: CallOwner,
    own: &mut Vec<Slot<'a>>,
    callers: Vec<Slot<'a>>,
    ran: RunResult<'a>,
) -> Result<RunResult<'a>, OutOfMemory>
    ensures { IfOk result (λ all. (m : run_of.Memory) →
        ran_of all (run_of.with_own m (vars_of own.new.items)) ≡
        run_of.within_caller (home_of home) (vars_of callers.entry.items)
        (ran_of ran.entry (run_of.with_own m (vars_of own.old.items)))) }
{
    let own = mem::replace(own, callers);
    match ran {
        RunResult::Goes | RunResult::Exits => Ok(RunResult::Goes),
        RunResult::Fails(number) => Ok(RunResult::Fails(number)),
        RunResult::Stops(stop) => stopped_in(alloc, stop, home, own),
    }
}
