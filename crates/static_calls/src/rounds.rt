//! Routines that reach themselves.

ghost use Rattle.std.specs.Prelude.{◌≡◌, ◌↔◌, Some, IfOk, IsTrue, List, [], ◌∷◌, ◌++◌, length};
ghost use Rattle.syntax_tree.specs.Placed.{Routine as SpecRoutine, placed_routine};
ghost use Rattle.syntax_tree.specs.declared.place.Place.{Place as SpecPlace};
ghost use Rattle.static_rule.specs.First.{IsFirstOf, sooner as sooner_of};
ghost use Rattle.static_calls.specs.Tables.{seen_routines, ComesBack, OneComesBack};

use crate::Cycles;
use crate::numbers::{RoutineIndex, number};
use out_of_memory::OutOfMemory;
use static_rule::{Violation, rule, sooner};
use std::alloc::Global;
use syntax_tree::Routine;

/// Whether a routine reaches itself.
fn comes_back(
    alloc: Global,
    numbers: &RoutineIndex,
    cycles: &Cycles,
    routine: &Routine,
) -> Result<bool, OutOfMemory>
    requires { length cycles.now ≡ length numbers.now.keys }
    ensures { IfOk result (λ back. IsTrue back ↔ ComesBack numbers.now.keys cycles.now
        (placed_routine routine.now)) }
{
    match number(numbers, routine.place) {
        Some(node) => cycles.comes_back(alloc, node),
        None => Ok(false),
    }
}

/// Whether a failure comes first, beside one that is known.
fn comes_first(broken: Violation, first: Option<Violation>) -> bool
    ensures { IsTrue result ↔ (sooner_of (Some broken) first ≡ Some broken) }
{
    sooner(Some(broken), first) == Some(broken)
}

/// The first of the routines so far that reaches itself, once it is known of one more. A routine
/// whose place comes later than that of the first is not asked.
fn next_round(
    alloc: Global,
    numbers: &RoutineIndex,
    cycles: &Cycles,
    first: Option<Violation>,
    routine: &Routine,
) -> Result<Option<Violation>, OutOfMemory>
    requires { length cycles.now ≡ length numbers.now.keys }
    ensures { IfOk result (λ next. (rs : List (SpecRoutine SpecPlace)) →
        IsFirstOf (OneComesBack numbers.now.keys cycles.now rs) first →
        IsFirstOf (OneComesBack numbers.now.keys cycles.now (rs ++ placed_routine routine.now ∷ []))
        next) }
{
    let broken = Violation {
        number: rule::RECURSION,
        place: routine.place,
    };
    if !comes_first(broken, first) {
        return Ok(first);
    }
    if comes_back(alloc, numbers, cycles, routine)? {
        Ok(Some(broken))
    } else {
        Ok(first)
    }
}

/// The first routine that reaches itself.
pub fn first_round(
    alloc: Global,
    numbers: &RoutineIndex,
    cycles: &Cycles,
    routines: &[&Routine],
) -> Result<Option<Violation>, OutOfMemory>
    requires { length cycles.now ≡ length numbers.now.keys }
    ensures { IfOk result (λ first. IsFirstOf
        (OneComesBack numbers.now.keys cycles.now (seen_routines routines.now)) first) }
{
    let mut first = None;
    for routine in routines {
        first = next_round(alloc, numbers, cycles, first, routine)?;
    }
    Ok(first)
}
