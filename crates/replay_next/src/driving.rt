//! A run, step by step, over a list of the callers that wait.

ghost use Rattle.std.specs.Prelude.{◌≡◌, ◌+◌, ◌-◌, ◌<◌, ◌≤◌, IfOk, Some, map, option_map};
ghost use Rattle.source_semantics.specs.Next as next_of_source;
ghost use Rattle.source_semantics.specs.Run as run_of;
ghost use Rattle.source_semantics.specs.Store as vars;
ghost use Rattle.replay_state.specs.View.{action_of, answers_of, calls_of, item_of, vars_of};
ghost use Rattle.replay_calls.specs.declared.lookup.EvalContext as code_scope;
ghost use Rattle.replay_calls.specs.Reach.{area_of, memory_of, site_of};
ghost use Rattle.replay_calls.specs.Seen.{answer_of};
ghost use Rattle.replay_next.specs.Driving.{HasGone, after_run, after_weight, answer_within, callers_run, callers_weight, driven_run, end_answer, end_weight, function_weight, function_within, others_in, others_of, procedure_weight, procedure_within, running_run, running_weight, waiting_weight};
ghost use Rattle.replay_next.specs.Ran.{ran_of};
ghost use Rattle.replay_next.specs.Remains.{came_of, came_step, function_step, part_step, procedure_step};
ghost use Rattle.replay_next.specs.Weights.{Costs, answers_weight, costs};

use crate::at_once::at_once;
use crate::beginning::{evaluates, ran};
use crate::calling::{answering, given_back, statements};
use crate::evaluating::evaluate;
use crate::items::{begin_item, leave_item, next_stmt, next_turn};
use crate::remains::{
    CalledRoutine, Caller, Driven, FunctionCaller, FunctionEnd, ItemResult, Part, ProcedureCaller,
    Remains, Running, Step, StmtItem,
};
use crate::results::{RunResult, Stop, stopped_before};
use crate::storing::back_beside;
use crate::telling::tell;
use out_of_memory::OutOfMemory;
use replay_calls::{Answer, EvalContext, Memory, home_in};
use replay_state::{CallOwner, Item, ResultExpr};
use std::alloc::Global;
use std::mem;

/// A procedure begins; its caller waits.
fn call_procedure<'s, 'a>(
    scope: &EvalContext<'a>,
    memory: &mut Memory<'s, 'a>,
    running: &mut Running<'s, 'a>,
    called: CalledRoutine<'a>,
) -> Result<Step<'a>, OutOfMemory>
    ensures run { IfOk result (λ step. running_run scope.now running.new step memory.new ≡
        running_run scope.now running.old (procedure_step called.entry) memory.old) }
    ensures falls { IfOk result (λ step. running_weight scope.now running.new step <
        running_weight scope.now running.old (procedure_step called.entry)) }
{
    let depth = running.depth;
    if depth == 0 {
        return Ok(Step::Came(ItemResult::Ran(RunResult::Goes)));
    }
    let CalledRoutine { found, own } = called;
    let callee = home_in(found.home);
    let body = statements(&found.routine.body);
    let own = mem::replace(&mut memory.own, own);
    let rest = mem::replace(&mut running.rest, Vec::new(scope.alloc));
    let home = running.home;
    running.home = callee;
    running.depth = depth - 1;
    running.callers.push(Caller::OfProcedure(ProcedureCaller {
        callee,
        home,
        depth,
        own,
        rest,
    }))?;
    Ok(Step::Does(body))
}

/// A function begins; its caller waits. What it changes beside its own variables is dropped.
fn call_function<'s, 'a>(
    scope: &EvalContext<'a>,
    memory: &mut Memory<'s, 'a>,
    running: &mut Running<'s, 'a>,
    called: CalledRoutine<'a>,
    remains: Remains<'a>,
) -> Result<Step<'a>, OutOfMemory>
    ensures run { IfOk result (λ step. running_run scope.now running.new step memory.new ≡
        running_run scope.now running.old (function_step called.entry remains.entry) memory.old) }
    ensures falls { IfOk result (λ step. running_weight scope.now running.new step <
        running_weight scope.now running.old (function_step called.entry remains.entry)) }
{
    let depth = running.depth;
    if depth == 0 {
        return Ok(Step::Part(Part::Answer(Answer::Word(0)), remains));
    }
    let CalledRoutine { found, own } = called;
    let callee = home_in(found.home);
    let body = statements(&found.routine.body);
    let result = answering(found.routine);
    let own = mem::replace(&mut memory.own, own);
    let rest = mem::replace(&mut running.rest, Vec::new(scope.alloc));
    let kept = mem::replace(&mut running.kept, None);
    let home = running.home;
    running.home = callee;
    running.depth = depth - 1;
    running.callers.push(Caller::OfFunction(FunctionCaller {
        callee,
        result,
        home,
        depth,
        own,
        rest,
        remains,
        kept,
    }))?;
    Ok(Step::Does(body))
}

/// A procedure gives no value back.
fn without_value<'a>(came: ItemResult<'a>) -> RunResult<'a>
    ensures { (h : run_of.Home) → (own : vars.Vars) → (m : run_of.Memory) →
        run_of.within_caller h own (ran_of result m) ≡
        run_of.within_caller h own (came_of came.entry m) }
{
    match came {
        ItemResult::Ran(ran) => ran,
        ItemResult::Gives(_) => RunResult::Goes,
    }
}

/// The caller of a procedure goes on, which came to this.
fn procedure_over<'s, 'a>(
    scope: &EvalContext<'a>,
    memory: &mut Memory<'s, 'a>,
    running: &mut Running<'s, 'a>,
    caller: ProcedureCaller<'a>,
    came: ItemResult<'a>,
) -> Result<Step<'a>, OutOfMemory>
    ensures run { IfOk result (λ step. running_run scope.now running.new step memory.new ≡
        callers_run scope.now running.old.callers.items (others_of running.old.kept memory.old)
        (procedure_within scope.now caller.entry (came_of came.entry (memory_of memory.old)))) }
    ensures falls { IfOk result (λ step. running_weight scope.now running.new step <
        callers_weight scope.now running.old.callers.items +
        procedure_weight scope.now caller.entry) }
{
    let ProcedureCaller {
        callee,
        home,
        depth,
        own,
        rest,
    } = caller;
    let back = given_back(
        scope.alloc,
        callee,
        &mut memory.own,
        own,
        without_value(came),
    )?;
    running.home = home;
    running.depth = depth;
    running.rest = rest;
    Ok(Step::Came(ItemResult::Ran(back)))
}

/// How a function is over whose body came to this.
fn function_end<'a>(came: ItemResult<'a>, value: Option<ResultExpr<'a>>) -> FunctionEnd<'a>
    ensures run { (c : run_of.Site) (m : run_of.Memory) → end_answer c result m ≡
        next_of_source.answer_after c (option_map answers_of value.entry)
        (came_of came.entry m) }
    ensures falls { (k : Costs) → end_weight k result ≤
        answers_weight k (option_map answers_of value.entry) }
{
    match came {
        ItemResult::Gives(value) => FunctionEnd::Answers(Answer::Word(value)),
        ItemResult::Ran(ran) => match ran {
            RunResult::Fails(number) => FunctionEnd::Answers(Answer::Raised(number)),
            RunResult::Exits | RunResult::Stops(_) => FunctionEnd::Answers(Answer::Word(0)),
            RunResult::Goes => match value {
                None => FunctionEnd::Answers(Answer::Word(0)),
                Some(value) => FunctionEnd::Evaluates(value),
            },
        },
    }
}

/// The caller of a function goes on, whose answer is this.
fn answer_given<'s, 'a>(
    memory: &mut Memory<'s, 'a>,
    running: &mut Running<'s, 'a>,
    caller: FunctionCaller<'s, 'a>,
    answer: Answer,
) -> Step<'a>
    ensures run { (s : code_scope.EvalContext) →
        let now = others_of running.old.kept memory.old in
        running_run s running.new result memory.new ≡ callers_run s running.old.callers.items
        (others_in caller.entry.kept now) (answer_within s caller.entry now (answer_of answer)) }
    ensures falls { (s : code_scope.EvalContext) → running_weight s running.new result <
        callers_weight s running.old.callers.items + waiting_weight s caller.entry }
{
    let FunctionCaller {
        home,
        depth,
        own,
        rest,
        remains,
        kept,
        ..
    } = caller;
    back_beside(memory, &mut running.kept, kept);
    memory.own = own;
    running.home = home;
    running.depth = depth;
    running.rest = rest;
    Step::Part(Part::Answer(answer), remains)
}

/// The result of a function is evaluated; its caller still waits.
fn evaluate_result<'s, 'a>(
    alloc: Global,
    memory: &Memory<'s, 'a>,
    running: &mut Running<'s, 'a>,
    caller: FunctionCaller<'s, 'a>,
    value: ResultExpr<'a>,
) -> Result<Step<'a>, OutOfMemory>
    ensures run { IfOk result (λ step. (s : code_scope.EvalContext) →
        let f = caller.entry in
        let now = others_of running.old.kept memory.now in
        let c = site_of s f.callee (f.depth - 1) in
        running_run s running.new step memory.now ≡
        callers_run s running.old.callers.items (others_in f.kept now) (answer_within s f now
        (next_of_source.answer_after c (Some (answers_of value.entry))
        (run_of.goes (memory_of memory.now))))) }
    ensures falls { IfOk result (λ step. (s : code_scope.EvalContext) →
        running_weight s running.new step < callers_weight s running.old.callers.items +
        (waiting_weight s caller.entry + answers_weight (costs s (caller.entry.depth - 1))
        (Some (answers_of value.entry)))) }
{
    let mut caller = caller;
    caller.result = None;
    running.home = caller.callee;
    running.depth = caller.depth.saturating_sub(1);
    running.rest = Vec::new(alloc);
    running.callers.push(Caller::OfFunction(caller))?;
    Ok(evaluates(alloc, value.value, StmtItem::Result(value.kind)))
}

/// What follows the body of a function, which came to this.
fn function_over<'s, 'a>(
    alloc: Global,
    memory: &mut Memory<'s, 'a>,
    running: &mut Running<'s, 'a>,
    caller: FunctionCaller<'s, 'a>,
    came: ItemResult<'a>,
) -> Result<Step<'a>, OutOfMemory>
    ensures run { IfOk result (λ step. (s : code_scope.EvalContext) →
        let now = others_of running.old.kept memory.old in
        running_run s running.new step memory.new ≡
        callers_run s running.old.callers.items (others_in caller.entry.kept now)
        (function_within s caller.entry now (came_of came.entry (memory_of memory.old)))) }
    ensures falls { IfOk result (λ step. (s : code_scope.EvalContext) →
        running_weight s running.new step < callers_weight s running.old.callers.items +
        function_weight s caller.entry) }
{
    match function_end(came, caller.result) {
        FunctionEnd::Answers(answer) => Ok(answer_given(memory, running, caller, answer)),
        FunctionEnd::Evaluates(value) => evaluate_result(alloc, memory, running, caller, value),
    }
}

/// What follows a call that came to this: its caller goes on. The run is over where none is left.
fn returned<'s, 'a>(
    scope: &EvalContext<'a>,
    memory: &mut Memory<'s, 'a>,
    running: &mut Running<'s, 'a>,
    came: ItemResult<'a>,
) -> Result<Driven<'a>, OutOfMemory>
    ensures run { IfOk result (λ driven. driven_run scope.now running.new driven memory.new ≡
        callers_run scope.now running.old.callers.items (others_of running.old.kept memory.old)
        (came_of came.entry (memory_of memory.old))) }
    ensures falls { IfOk result (λ driven. HasGone scope.now running.new driven
        (callers_weight scope.now running.old.callers.items)) }
{
    match running.callers.pop() {
        None => Ok(Driven::Over(came)),
        Some(Caller::OfProcedure(caller)) => {
            Ok(Driven::At(procedure_over(scope, memory, running, caller, came)?))
        }
        Some(Caller::OfFunction(caller)) => {
            Ok(Driven::At(function_over(scope.alloc, memory, running, caller, came)?))
        }
    }
}

/// The step, or the one after it where it is a part of an expression.
fn part_met<'s, 'a>(
    scope: &EvalContext<'a>,
    memory: &mut Memory<'s, 'a>,
    running: &mut Running<'s, 'a>,
    step: Step<'a>,
) -> Result<Step<'a>, OutOfMemory>
    ensures run { IfOk result (λ next. running_run scope.now running.new next memory.new ≡
        running_run scope.now running.old step.entry memory.old) }
    ensures falls { IfOk result (λ next. running_weight scope.now running.new next ≤
        running_weight scope.now running.old step.entry) }
{
    match step {
        Step::Part(part, remains) => next_part(scope, memory, running, part, remains),
        other => Ok(other),
    }
}

/// The next step of the call that runs, which goes on.
fn goes_on<'s, 'a>(
    scope: &EvalContext<'a>,
    memory: &mut Memory<'s, 'a>,
    running: &mut Running<'s, 'a>,
) -> Result<Driven<'a>, OutOfMemory>
    ensures run { IfOk result (λ driven. driven_run scope.now running.new driven memory.new ≡
        after_run scope.now running.old memory.old (run_of.goes (memory_of memory.old))) }
    ensures falls { IfOk result (λ driven. HasGone scope.now running.new driven
        (after_weight scope.now running.old)) }
{
    match running.rest.pop() {
        None => returned(scope, memory, running, ItemResult::Ran(RunResult::Goes)),
        Some(item) => {
            let home = running.home;
            let depth = running.depth;
            let kept = &mut running.kept;
            let rest = &mut running.rest;
            let step = begin_item(scope, home, depth, memory, kept, rest, item)?;
            Ok(Driven::At(part_met(scope, memory, running, step)?))
        }
    }
}

/// The next step of the call that runs, whose innermost loop is being left.
fn exits_on<'s, 'a>(
    scope: &EvalContext<'a>,
    memory: &mut Memory<'s, 'a>,
    running: &mut Running<'s, 'a>,
) -> Result<Driven<'a>, OutOfMemory>
    ensures run { IfOk result (λ driven. driven_run scope.now running.new driven memory.new ≡
        after_run scope.now running.old memory.old (run_of.exits (memory_of memory.old))) }
    ensures falls { IfOk result (λ driven. HasGone scope.now running.new driven
        (after_weight scope.now running.old)) }
{
    match running.rest.pop() {
        None => returned(scope, memory, running, ItemResult::Ran(RunResult::Exits)),
        Some(item) => Ok(Driven::At(ran(leave_item(memory, item)))),
    }
}

/// The caller of the call that runs goes on, since that stops; its items remain.
fn stops_with<'s, 'a>(
    scope: &EvalContext<'a>,
    memory: &mut Memory<'s, 'a>,
    running: &mut Running<'s, 'a>,
    stop: Stop<'a>,
) -> Result<Driven<'a>, OutOfMemory>
    ensures run { IfOk result (λ driven. driven_run scope.now running.new driven memory.new ≡
        after_run scope.now running.old memory.old (run_of.stops (action_of stop.entry.action)
        (calls_of stop.entry.inside.items) (map item_of stop.entry.rest.items)
        (memory_of memory.old))) }
    ensures falls { IfOk result (λ driven. HasGone scope.now running.new driven
        (after_weight scope.now running.old)) }
{
    let items = mem::replace(&mut running.rest, Vec::new(scope.alloc));
    let whole = stopped_before(stop, items)?;
    returned(scope, memory, running, ItemResult::Ran(whole))
}

/// The next step of the call that runs, which came to this.
fn go_on<'s, 'a>(
    scope: &EvalContext<'a>,
    memory: &mut Memory<'s, 'a>,
    running: &mut Running<'s, 'a>,
    came: ItemResult<'a>,
) -> Result<Driven<'a>, OutOfMemory>
    ensures run { IfOk result (λ driven. driven_run scope.now running.new driven memory.new ≡
        running_run scope.now running.old (came_step came.entry) memory.old) }
    ensures falls { IfOk result (λ driven. HasGone scope.now running.new driven
        (running_weight scope.now running.old (came_step came.entry))) }
{
    match came {
        ItemResult::Gives(value) => returned(scope, memory, running, ItemResult::Gives(value)),
        ItemResult::Ran(ran) => match ran {
            RunResult::Goes => goes_on(scope, memory, running),
            RunResult::Exits => exits_on(scope, memory, running),
            RunResult::Stops(stop) => stops_with(scope, memory, running, stop),
            RunResult::Fails(number) => {
                let fails = ItemResult::Ran(RunResult::Fails(number));
                returned(scope, memory, running, fails)
            }
        },
    }
}

/// The next step of an expression.
fn next_part<'s, 'a>(
    scope: &EvalContext<'a>,
    memory: &mut Memory<'s, 'a>,
    running: &mut Running<'s, 'a>,
    part: Part<'a>,
    remains: Remains<'a>,
) -> Result<Step<'a>, OutOfMemory>
    ensures run { IfOk result (λ step. running_run scope.now running.new step memory.new ≡
        running_run scope.now running.old (part_step part.entry remains.entry) memory.old) }
    ensures falls { IfOk result (λ step. running_weight scope.now running.new step <
        running_weight scope.now running.old (part_step part.entry remains.entry)) }
{
    let home = running.home;
    let depth = running.depth;
    match part {
        Part::Expr(expr) => match at_once(scope, home, depth, memory, expr) {
            None => evaluate(scope, home, depth, memory, expr, remains),
            Some(answer) => {
                let kept = &mut running.kept;
                tell(scope, home, depth, memory, kept, remains, answer)
            }
        },
        Part::Answer(answer) => {
            let kept = &mut running.kept;
            tell(scope, home, depth, memory, kept, remains, answer)
        }
        Part::Call(called) => call_function(scope, memory, running, called, remains),
    }
}

/// The next step of a run.
fn drive<'s, 'a>(
    scope: &EvalContext<'a>,
    memory: &mut Memory<'s, 'a>,
    running: &mut Running<'s, 'a>,
    step: Step<'a>,
) -> Result<Driven<'a>, OutOfMemory>
    ensures run { IfOk result (λ driven. driven_run scope.now running.new driven memory.new ≡
        running_run scope.now running.old step.entry memory.old) }
    ensures falls { IfOk result (λ driven. HasGone scope.now running.new driven
        (running_weight scope.now running.old step.entry)) }
{
    let home = running.home;
    let depth = running.depth;
    match step {
        Step::Came(came) => go_on(scope, memory, running, came),
        Step::Part(part, remains) => {
            Ok(Driven::At(next_part(scope, memory, running, part, remains)?))
        }
        Step::CallsProcedure(called) => {
            Ok(Driven::At(call_procedure(scope, memory, running, called)?))
        }
        Step::Does(stmts) => {
            let rest = &mut running.rest;
            let step = next_stmt(scope, home, depth, rest, stmts)?;
            Ok(Driven::At(part_met(scope, memory, running, step)?))
        }
        Step::Turns { name, turns, body } => {
            let rest = &mut running.rest;
            Ok(Driven::At(next_turn(&mut memory.own, rest, name, turns, body)?))
        }
    }
}

/// What a run comes to from this step on.
fn run_on<'s, 'a>(
    scope: &EvalContext<'a>,
    memory: &mut Memory<'s, 'a>,
    running: &mut Running<'s, 'a>,
    first: Step<'a>,
) -> Result<ItemResult<'a>, OutOfMemory>
    ensures { IfOk result (λ came. came_of came (memory_of memory.new) ≡
        running_run scope.now running.old first.entry memory.old) }
{
    let mut step = first;
    'steps: loop {
        match drive(scope, memory, running, step)? {
            Driven::Over(came) => return Ok(came),
            Driven::At(next) => step = next,
        }
    }
}

/// What items come to, in turn, with all that they call.
pub fn run_whole<'s, 'a>(
    scope: &EvalContext<'a>,
    home: CallOwner,
    depth: usize,
    memory: &mut Memory<'s, 'a>,
    items: Vec<Item<'a>>,
) -> Result<ItemResult<'a>, OutOfMemory>
    ensures { IfOk result (λ came. came_of came (memory_of memory.new) ≡ next_of_source.run_items
        (site_of scope.now home depth) (memory_of memory.old) (map item_of items.entry.items)) }
{
    let mut rest = items;
    rest.reverse();
    let mut running = Running {
        home,
        depth,
        rest,
        kept: None,
        callers: Vec::new(scope.alloc),
    };
    let first = Step::Came(ItemResult::Ran(RunResult::Goes));
    run_on(scope, memory, &mut running, first)
}
