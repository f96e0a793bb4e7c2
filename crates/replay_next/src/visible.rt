//! Statements whose expressions are evaluated.

ghost use Rattle.std.specs.Prelude.{◌≡◌, [], IfOk, cond};
ghost use Rattle.base.specs.Words.{is_true as is_truth};
ghost use Rattle.syntax_tree.specs.Placed.{placed, placed_constant, plain, plain_constant};
ghost use Rattle.source_semantics.specs.Names.{count_value, device_number as number_of_device, monitor_number as number_of_monitor};
ghost use Rattle.source_semantics.specs.Run as run_of;
ghost use Rattle.replay_calls.specs.Seen.{answer_of};
ghost use Rattle.replay_calls.specs.Reach.{site_of};
ghost use Rattle.replay_next.specs.Ran.{ran_of, tested_run};

use crate::results::{RunResult, stops};
use out_of_memory::OutOfMemory;
use replay_calls::{Answer, EvalContext, condition_here, device_number, is_true, monitor_number};
use replay_state::{Action, CallOwner, Item, count};
use std::alloc::Global;
use syntax_tree::{Constant, Name};

/// Whether a condition holds, or the number of its exception.
#[derive(Clone, Copy)]
pub enum ConditionResult {
    Holds,
    Not,
    Raised(u32),
}

/// Whether the condition holds that has this value.
pub fn tested(answer: Answer) -> ConditionResult
    ensures { (m : run_of.Memory) → (first : run_of.Run) → (second : run_of.Run) →
        tested_run result m first second ≡ run_of.with_value (answer_of answer) m
        (λ v. cond (is_truth v) first second) }
{
    match answer {
        Answer::Raised(number) => ConditionResult::Raised(number),
        Answer::Word(word) => {
            if is_true(word) {
                ConditionResult::Holds
            } else {
                ConditionResult::Not
            }
        }
    }
}

/// An exit from the innermost loop, where its condition holds.
pub fn exited<'a>(answer: Answer) -> RunResult<'a>
    ensures { (m : run_of.Memory) → ran_of result m ≡ run_of.with_value (answer_of answer) m
        (λ v. cond (is_truth v) (run_of.exits m) (run_of.goes m)) }
{
    match answer {
        Answer::Raised(number) => RunResult::Fails(number),
        Answer::Word(word) => {
            if is_true(word) {
                RunResult::Exits
            } else {
                RunResult::Goes
            }
        }
    }
}

/// An assertion.
pub fn asserted<'a>(answer: Answer) -> RunResult<'a>
    ensures { (m : run_of.Memory) → ran_of result m ≡ run_of.with_value (answer_of answer) m
        (λ v. cond (is_truth v) (run_of.goes m) (run_of.fails 4 m)) }
{
    match answer {
        Answer::Raised(number) => RunResult::Fails(number),
        Answer::Word(word) => {
            if is_true(word) {
                RunResult::Goes
            } else {
                RunResult::Fails(4)
            }
        }
    }
}

/// The number of the device of that name.
pub fn device_here(scope: &EvalContext<'_>, device: &Name) -> usize
    ensures { result ≡ number_of_device (plain (placed scope.now.declarations.now)) device.now }
{
    device_number(device, scope.declarations.program().decls.as_slice())
}

/// The number of the monitor of that name.
pub fn monitor_here(scope: &EvalContext<'_>, mon: &Name) -> usize
    ensures { result ≡ number_of_monitor (plain (placed scope.now.declarations.now)) mon.now }
{
    monitor_number(mon, scope.declarations.program().decls.as_slice())
}

/// A value that is put to a device.
pub fn puts<'a>(alloc: Global, dev: usize, answer: Answer) -> Result<RunResult<'a>, OutOfMemory>
    ensures { IfOk result (λ ran. (m : run_of.Memory) → ran_of ran m ≡
        run_of.with_value (answer_of answer) m
        (λ v. run_of.stops (run_of.puts dev v) [] [] m)) }
{
    match answer {
        Answer::Raised(number) => Ok(RunResult::Fails(number)),
        Answer::Word(value) => stops(alloc, Action::Puts { dev, value }, None),
    }
}

/// A wait for a condition of the monitor whose text this is.
pub fn waits<'a>(
    scope: &EvalContext<'a>,
    home: CallOwner,
    depth: usize,
    condition: &Name,
    limit: &Constant,
    number: &Constant,
) -> Result<RunResult<'a>, OutOfMemory>
    ensures { let g = plain (placed scope.now.declarations.now) in
        IfOk result (λ ran. (m : run_of.Memory) → ran_of ran m ≡ run_of.waits_here
        (site_of scope.now home depth) condition.now
        (count_value g (plain_constant (placed_constant limit.now)))
        (count_value g (plain_constant (placed_constant number.now))) m) }
{
    match home {
        CallOwner::Program | CallOwner::Process => Ok(RunResult::Goes),
        CallOwner::Monitor(mon) => {
            let condition = condition_here(scope, home, depth, condition);
            let action = Action::Waits {
                condition,
                limit: count(scope.declarations, limit),
                number: count(scope.declarations, number),
            };
            stops(scope.alloc, action, Some(Item::EnterAgain { mon }))
        }
    }
}
