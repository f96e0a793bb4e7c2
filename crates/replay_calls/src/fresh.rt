//! Variables as they start, and variables of parameters.

ghost use Rattle.std.specs.Prelude.{◌≡◌, ◌++◌, ◌-ℤ◌, ◌≤ℤ◌, IfOk, OnOk, map, negsuc, option_map, pos};
ghost use Rattle.base.specs.Words.{with_word};
ghost use Rattle.syntax_tree.specs.Placed.{placed, placed_kind, placed_param, placed_scalar, placed_var, plain, plain_kind, plain_param, plain_scalar, plain_var};
ghost use Rattle.source_semantics.specs.Store.{checked as checked_in, fresh as fresh_var, fresh_held as held_fresh, kind_range as range_of_type, range_of as range_of_kind, up_to};
ghost use Rattle.source_semantics.specs.Run.{Bound, added, with_argument};
ghost use Rattle.replay_state.specs.View.{held_of, range_of as seen_range, slot_of, vars_of};
ghost use Rattle.replay_calls.specs.Seen.{answer_of};
ghost use Rattle.replay_calls.specs.Reach.{in_front};

use crate::Answer;
use crate::storing::in_range;
use out_of_memory::OutOfMemory;
use replay_state::{Slot, SlotValue, Subrange, Words};
use static_declarations::Declarations;
use std::alloc::Global;
use syntax_tree::{Param, Scalar, Type, Var};

/// The range that values of a type keep to, if any.
pub fn range_of(declarations: &Declarations<'_>, kind: &Scalar) -> Option<Subrange>
    ensures { option_map seen_range result ≡ range_of_kind (plain (placed declarations.now))
        (plain_scalar (placed_scalar kind.now)) }
{
    match kind {
        Scalar::Int | Scalar::Boolean => None,
        Scalar::Subrange { low, high } => Some(Subrange {
            low: declarations.value(low),
            high: declarations.value(high),
        }),
    }
}

/// The answer, where its value keeps to the range.
pub fn checked(range: Option<Subrange>, answer: Answer) -> Answer
    ensures { answer_of result ≡ with_word (answer_of answer)
        (λ v. checked_in (option_map seen_range range) v) }
{
    match answer {
        Answer::Raised(_) => answer,
        Answer::Word(word) => {
            if in_range(range, word) {
                answer
            } else {
                Answer::Raised(3)
            }
        }
    }
}

/// How many words an array with these bounds has.
fn word_count(low: i64, high: i64) -> usize
    requires low { (negsuc 4294967294 ≤ℤ low) × (low ≤ℤ pos 4294967295) }
    requires high { (negsuc 4294967294 ≤ℤ high) × (high ≤ℤ pos 4294967295) }
    ensures { result ≡ up_to (high -ℤ low) }
{
    let more = high - low;
    if more < 0 { 0 } else { more as usize + 1 }
}

/// What a variable holds as it starts: 0 or false in each word.
fn fresh_held(
    alloc: Global,
    declarations: &Declarations<'_>,
    kind: &Type,
) -> Result<SlotValue, OutOfMemory>
    ensures { IfOk result (λ held. held_of held ≡ held_fresh (plain (placed declarations.now))
        (plain_kind (placed_kind kind.now))) }
{
    match kind {
        Type::Scalar(_) => Ok(SlotValue::One(0)),
        Type::Array { low, high, .. } => {
            let low = declarations.value(low);
            let count = word_count(low, declarations.value(high));
            let items = vec![in alloc; 0; count]?;
            Ok(SlotValue::Many(Words { low, items }))
        }
    }
}

/// The range that the values of a variable keep to, if any.
fn kind_range(declarations: &Declarations<'_>, kind: &Type) -> Option<Subrange>
    ensures { option_map seen_range result ≡ range_of_type (plain (placed declarations.now))
        (plain_kind (placed_kind kind.now)) }
{
    match kind {
        Type::Scalar(kind) => range_of(declarations, kind),
        Type::Array { element, .. } => range_of(declarations, element),
    }
}

/// A variable as it starts.
fn fresh<'a>(
    alloc: Global,
    declarations: &Declarations<'_>,
    var: &'a Var,
) -> Result<Slot<'a>, OutOfMemory>
    ensures { IfOk result (λ slot. slot_of slot ≡ fresh_var (plain (placed declarations.now))
        (plain_var (placed_var var.now))) }
{
    let held = fresh_held(alloc, declarations, &var.kind)?;
    Ok(Slot {
        name: &var.name,
        range: kind_range(declarations, &var.kind),
        held,
    })
}

/// Adds variables as they start.
pub fn add_fresh<'a>(
    alloc: Global,
    declarations: &Declarations<'_>,
    slots: &mut Vec<Slot<'a>>,
    vars: &'a [Var],
) -> Result<(), OutOfMemory>
    ensures { OnOk result (vars_of slots.new.items ≡ vars_of slots.old.items ++
        map (fresh_var (plain (placed declarations.now)))
        (map plain_var (map placed_var vars.now))) }
{
    for var in vars {
        let slot = fresh(alloc, declarations, var)?;
        slots.push(slot)?;
    }
    Ok(())
}

/// The variable of a parameter, or the number of the exception of its argument.
#[derive(Drop)]
pub enum ArgumentResult<'a> {
    To(Slot<'a>),
    Raised(u32),
}

/// The variable of a parameter with its argument, where that keeps to the range.
pub fn param_variable<'a>(
    declarations: &Declarations<'_>,
    param: &'a Param,
    answer: Answer,
) -> ArgumentResult<'a>
    ensures { (rest : Bound) → in_front result rest ≡ with_argument (plain (placed declarations.now))
        (plain_param (placed_param param.now)) (answer_of answer)
        (λ v. added (plain (placed declarations.now))
        (plain_param (placed_param param.now)) v rest) }
{
    let range = range_of(declarations, &param.kind);
    match checked(range, answer) {
        Answer::Raised(number) => ArgumentResult::Raised(number),
        Answer::Word(word) => ArgumentResult::To(Slot {
            name: &param.name,
            range,
            held: SlotValue::One(word),
        }),
    }
}
