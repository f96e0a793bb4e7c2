//! Statements, up to the first expression that is evaluated.

ghost use Rattle.std.specs.Prelude.{◌≡◌, ◌+◌, ◌*◌, ◌<◌, ◌≤◌, ◌-ℤ◌, ◌∷◌, [], IfOk, ℕ, cond, option_map, suc};
ghost use Rattle.base.specs.Words.{is_true as is_truth};
ghost use Rattle.syntax_tree.specs.Placed.{placed, placed_constant, placed_ref, placed_stmt, plain, plain_constant, plain_ref, plain_stmt};
ghost use Rattle.source_semantics.specs.Run as run_of;
ghost use Rattle.source_semantics.specs.Names.{constant_value};
ghost use Rattle.source_semantics.specs.Store.{up_to};
ghost use Rattle.replay_state.specs.View.{action_of, target_of};
ghost use Rattle.replay_calls.specs.Lookups.{found_of};
ghost use Rattle.replay_calls.specs.Reach.{site_of};
ghost use Rattle.replay_next.specs.Ran.{ran_of, receiving};
ghost use Rattle.replay_next.specs.Remains.{bound_of, else_of, expr_of, exprs_of, step_of, stmt_told, stmts_of, used};
ghost use Rattle.replay_next.specs.Weights.{Costs, bound_weight, costs, expr_weight, exprs_weight, named_weight, ref_weight, step_weight, stmt_item_weight, stmt_weight, stmts_weight, use_weight};

use crate::binding::next_argument;
use crate::calling::{entered, own_vars, statements};
use crate::remains::{
    AwaitingCall, Binding, BoundSoFar, CalledRoutine, ItemResult, Part, Remains, Step, StmtItem,
    TargetUse,
};
use crate::results::{RunResult, stops};
use crate::visible::{device_here, monitor_here, waits};
use out_of_memory::OutOfMemory;
use replay_calls::{
    EvalContext, ResolvedRoutine, condition_here, entry_named, routine_named, turn_count,
};
use replay_state::{Action, CallOwner, Item, Target, TurnsLeft, count};
use std::alloc::Global;
use syntax_tree::{Constant, Expr, List, Name, Ref, Stmt};

/// A statement came to this.
pub fn ran<'a>(came: RunResult<'a>) -> Step<'a>
    ensures run { (c : run_of.Site) (m : run_of.Memory) →
        step_of c result m ≡ ran_of came.entry m }
    ensures falls { (k : Costs) → step_weight k result ≡ 0 }
{
    Step::Came(ItemResult::Ran(came))
}

/// The expression of a statement is evaluated, after which this remains of the statement.
pub fn evaluates<'a>(alloc: Global, part: &'a Expr, stmt: StmtItem<'a>) -> Step<'a>
    ensures run { (c : run_of.Site) (m : run_of.Memory) →
        step_of c result m ≡ stmt_told c m stmt.entry (run_of.value c m (expr_of part.now)) }
    ensures falls { (k : Costs) → step_weight k result ≡
        expr_weight k (expr_of part.now) + stmt_item_weight k stmt.entry }
{
    let exprs = Vec::new(alloc);
    Step::Part(Part::Expr(part), Remains { exprs, stmt })
}

/// A call, an argument of which is to be evaluated.
fn awaiting<'a>(
    alloc: Global,
    found: ResolvedRoutine<'a>,
    binding: Binding<'a>,
) -> Result<Box<AwaitingCall<'a>>, OutOfMemory>
    ensures found { IfOk result (λ call. call.value.found ≡ found.entry) }
    ensures binding { IfOk result (λ call. call.value.binding ≡ binding.entry) }
{
    let call = Box::new(alloc, AwaitingCall { found, binding })?;
    Ok(call)
}

/// A call of a procedure, its arguments so far.
pub fn procedure_called<'a>(
    scope: &EvalContext<'a>,
    found: ResolvedRoutine<'a>,
    bound: BoundSoFar<'a>,
) -> Result<Step<'a>, OutOfMemory>
    ensures run { IfOk result (λ step. (c : run_of.Site) (m : run_of.Memory) →
        c.program ≡ plain (placed scope.now.declarations.now) → step_of c step m ≡
        run_of.performed c m (found_of found.entry) (bound_of c m bound.entry)) }
    ensures falls { IfOk result (λ step. (k : Costs) →
        step_weight k step ≤ k.found (found_of found.entry) + bound_weight k bound.entry) }
{
    match bound {
        BoundSoFar::Raised(number) => Ok(ran(RunResult::Fails(number))),
        BoundSoFar::Next(part, binding) => {
            let call = awaiting(scope.alloc, found, binding)?;
            Ok(evaluates(scope.alloc, part, StmtItem::Perform(call)))
        }
        BoundSoFar::All(params) => {
            let own = own_vars(scope.alloc, scope.declarations, found.routine, params)?;
            Ok(Step::CallsProcedure(CalledRoutine { found, own }))
        }
    }
}

/// A call of a procedure.
fn perform<'a>(
    scope: &EvalContext<'a>,
    home: CallOwner,
    depth: usize,
    name: &Name,
    args: &'a [Expr],
) -> Result<Step<'a>, OutOfMemory>
    ensures run { let c = site_of scope.now home depth in IfOk result (λ step.
        (m : run_of.Memory) → step_of c step m ≡
        run_of.perform_named c m name.now (exprs_of args.now)) }
    ensures falls { let k = costs scope.now depth in IfOk result (λ step.
        step_weight k step ≤ named_weight k name.now + exprs_weight k (exprs_of args.now)) }
{
    match routine_named(scope, name) {
        None => Ok(ran(RunResult::Goes)),
        Some(found) => {
            let params = found.routine.params.as_slice();
            let bound = next_argument(Vec::new(scope.alloc), params, args);
            procedure_called(scope, found, bound)
        }
    }
}

/// A call of an entry, its arguments so far; its answer, if any, is to be stored.
pub fn entry_called<'a>(
    scope: &EvalContext<'a>,
    found: ResolvedRoutine<'a>,
    bound: BoundSoFar<'a>,
    mon: usize,
    target: Option<Target<'a>>,
) -> Result<Step<'a>, OutOfMemory>
    ensures run { IfOk result (λ step. (c : run_of.Site) (m : run_of.Memory) →
        c.program ≡ plain (placed scope.now.declarations.now) → step_of c step m ≡
        run_of.entered c m (found_of found.entry) mon (bound_of c m bound.entry)
        (receiving (option_map target_of target.entry))) }
    ensures falls { IfOk result (λ step. (k : Costs) →
        step_weight k step ≤ bound_weight k bound.entry) }
{
    match bound {
        BoundSoFar::Raised(number) => Ok(ran(RunResult::Fails(number))),
        BoundSoFar::Next(part, binding) => {
            let call = awaiting(scope.alloc, found, binding)?;
            Ok(evaluates(scope.alloc, part, StmtItem::Enter { call, mon, target }))
        }
        BoundSoFar::All(params) => {
            let result = entered(scope, &found, mon, params, target)?;
            Ok(ran(result))
        }
    }
}

/// A call of an entry; its answer, if any, is to be stored.
fn enter<'a>(
    scope: &EvalContext<'a>,
    home: CallOwner,
    depth: usize,
    mon: &Name,
    entry: &Name,
    args: &'a [Expr],
    target: Option<Target<'a>>,
) -> Result<Step<'a>, OutOfMemory>
    ensures run { let c = site_of scope.now home depth in IfOk result (λ step.
        (m : run_of.Memory) → step_of c step m ≡ run_of.enter_named c m mon.now entry.now
        (exprs_of args.now) (receiving (option_map target_of target.entry))) }
    ensures falls { IfOk result (λ step. (k : Costs) →
        step_weight k step ≤ exprs_weight k (exprs_of args.now)) }
{
    match entry_named(scope, mon, entry) {
        None => Ok(ran(RunResult::Goes)),
        Some(found) => {
            let params = found.routine.params.as_slice();
            let bound = next_argument(Vec::new(scope.alloc), params, args);
            entry_called(scope, found, bound, monitor_here(scope, mon), target)
        }
    }
}

/// A visible action, after which a value is received.
fn asks<'a>(alloc: Global, action: Action, target: Target<'a>) -> Result<Step<'a>, OutOfMemory>
    ensures run { IfOk result (λ step. (c : run_of.Site) (m : run_of.Memory) → step_of c step m ≡
        run_of.stops (action_of action) [] (run_of.receive (target_of target.entry) ∷ []) m) }
    ensures falls { IfOk result (λ step. (k : Costs) → step_weight k step ≡ 0) }
{
    let result = stops(alloc, action, Some(Item::Receive(target)))?;
    Ok(ran(result))
}

/// What is done to a variable that is found.
pub fn use_target<'a>(
    scope: &EvalContext<'a>,
    home: CallOwner,
    depth: usize,
    then: TargetUse<'a>,
    target: Target<'a>,
) -> Result<Step<'a>, OutOfMemory>
    ensures run { let c = site_of scope.now home depth in IfOk result (λ step.
        (m : run_of.Memory) → step_of c step m ≡ used c m then.entry (target_of target.entry)) }
    ensures falls { IfOk result (λ step. (k : Costs) →
        step_weight k step ≤ use_weight k then.entry) }
{
    match then {
        TargetUse::Value(part) => Ok(evaluates(scope.alloc, part, StmtItem::Store(target))),
        TargetUse::Entry { mon, entry, args } => {
            enter(scope, home, depth, mon, entry, args, Some(target))
        }
        TargetUse::Empty(cond) => {
            let condition = condition_here(scope, home, depth, cond);
            asks(scope.alloc, Action::AsksEmpty { condition }, target)
        }
        TargetUse::Device(device) => {
            let dev = device_here(scope, device);
            asks(scope.alloc, Action::Gets { dev }, target)
        }
    }
}

/// What is done to a variable: an index is evaluated first.
fn aim<'a>(
    scope: &EvalContext<'a>,
    home: CallOwner,
    depth: usize,
    target: &'a Ref,
    then: TargetUse<'a>,
) -> Result<Step<'a>, OutOfMemory>
    ensures run { let c = site_of scope.now home depth in IfOk result (λ step.
        (m : run_of.Memory) → step_of c step m ≡ run_of.with_target c m
        (plain_ref (placed_ref target.now)) (λ t. used c m then.entry t)) }
    ensures falls { IfOk result (λ step. (k : Costs) → step_weight k step ≤
        ref_weight k (plain_ref (placed_ref target.now)) + suc (use_weight k then.entry)) }
{
    let name = &target.name;
    match &target.index {
        None => use_target(scope, home, depth, then, Target { name, index: None }),
        Some(index) => Ok(evaluates(scope.alloc, index, StmtItem::Index { name, then })),
    }
}

/// A loop before its first turn.
fn turns<'a>(
    scope: &EvalContext<'a>,
    name: &'a Name,
    low: &Constant,
    high: &Constant,
    body: &'a [Stmt],
) -> Step<'a>
    ensures run { let g = plain (placed scope.now.declarations.now) in
        let from = constant_value g (plain_constant (placed_constant low.now)) in
        let to = constant_value g (plain_constant (placed_constant high.now)) in
        (c : run_of.Site) (m : run_of.Memory) → step_of c result m ≡ run_of.turns
        (λ n. run_of.run_all c n (stmts_of body.now)) name.now (stmts_of body.now)
        (up_to (to -ℤ from)) from m }
    ensures falls { let g = plain (placed scope.now.declarations.now) in
        let from = constant_value g (plain_constant (placed_constant low.now)) in
        let to = constant_value g (plain_constant (placed_constant high.now)) in
        (k : Costs) → step_weight k result ≡
        suc (up_to (to -ℤ from) * suc (suc (suc (suc (stmts_weight k (stmts_of body.now)))))) }
{
    let value = scope.declarations.value(low);
    let left = turn_count(value, scope.declarations.value(high));
    let turns = TurnsLeft { value, left };
    Step::Turns { name, turns, body }
}

/// A choice before its test.
fn choice<'a>(
    alloc: Global,
    test: &'a Expr,
    first: &'a List<Stmt>,
    second: &'a Option<List<Stmt>>,
) -> Step<'a>
    ensures run { (c : run_of.Site) (m : run_of.Memory) → step_of c result m ≡
        run_of.with_value (run_of.value c m (expr_of test.now)) m (λ v. cond (is_truth v)
        (run_of.run_all c m (stmts_of first.now)) (run_of.run_all c m (else_of second.now))) }
    ensures falls { (k : Costs) → step_weight k result ≡ expr_weight k (expr_of test.now) +
        suc (suc (stmts_weight k (stmts_of first.now) + stmts_weight k (else_of second.now))) }
{
    let first = statements(first);
    let second = match second {
        None => &[],
        Some(second) => statements(second),
    };
    evaluates(alloc, test, StmtItem::Choice { first, second })
}

/// The first step of a statement.
pub fn begin<'a>(
    scope: &EvalContext<'a>,
    home: CallOwner,
    depth: usize,
    stmt: &'a Stmt,
) -> Result<Step<'a>, OutOfMemory>
    ensures run { let c = site_of scope.now home depth in IfOk result (λ step.
        (m : run_of.Memory) → step_of c step m ≡
        run_of.run c m (plain_stmt (placed_stmt stmt.now))) }
    ensures falls { let k = costs scope.now depth in IfOk result (λ step.
        suc (step_weight k step) < stmt_weight k (plain_stmt (placed_stmt stmt.now))) }
{
    match stmt {
        Stmt::Assign { target, value } => {
            aim(scope, home, depth, target, TargetUse::Value(value))
        }
        Stmt::AssignEntry {
            target,
            mon,
            entry,
            args,
            ..
        } => {
            let args = args.as_slice();
            aim(
                scope,
                home,
                depth,
                target,
                TargetUse::Entry { mon, entry, args },
            )
        }
        Stmt::AssignEmpty { target, cond, .. } => {
            aim(scope, home, depth, target, TargetUse::Empty(cond))
        }
        Stmt::Call { name, args, .. } => perform(scope, home, depth, name, args.as_slice()),
        Stmt::CallEntry {
            mon,
            entry,
            args,
            ..
        } => enter(scope, home, depth, mon, entry, args.as_slice(), None),
        Stmt::If {
            test,
            first,
            second,
            ..
        } => Ok(choice(scope.alloc, test, first, second)),
        Stmt::For {
            name,
            low,
            high,
            body,
            ..
        } => Ok(turns(scope, name, low, high, statements(body))),
        Stmt::ExitWhen { test, .. } => Ok(evaluates(scope.alloc, test, StmtItem::Exit)),
        Stmt::Get { device, target, .. } => {
            aim(scope, home, depth, target, TargetUse::Device(device))
        }
        Stmt::Put { device, value, .. } => {
            Ok(evaluates(scope.alloc, value, StmtItem::Put(device)))
        }
        Stmt::Wait {
            cond,
            limit,
            number,
            ..
        } => Ok(ran(waits(scope, home, depth, cond, limit, number)?)),
        Stmt::Signal { cond, .. } => {
            let condition = condition_here(scope, home, depth, cond);
            Ok(ran(stops(scope.alloc, Action::Signals { condition }, None)?))
        }
        Stmt::Broadcast { cond, .. } => {
            let condition = condition_here(scope, home, depth, cond);
            Ok(ran(stops(scope.alloc, Action::Broadcasts { condition }, None)?))
        }
        Stmt::Except { number, .. } => {
            Ok(ran(RunResult::Fails(count(scope.declarations, number))))
        }
        Stmt::Assert { test, .. } => Ok(evaluates(scope.alloc, test, StmtItem::Assertion)),
    }
}
