//! All rules for declarations together.

ghost use Rattle.std.specs.Prelude.{IfOk};
ghost use Rattle.syntax_tree.specs.Placed.{placed};
ghost use Rattle.static_rule.specs.First.{IsFirstOf};
ghost use Rattle.static_numbers.specs.Rules.{LimitFails};

use crate::{activations, bounds, counts, events, handlers};
use out_of_memory::OutOfMemory;
use static_declarations::Declarations;
use static_rule::{Violation, sooner};
use std::alloc::Global;

/// The rule for declarations that fails first, by place and then by number; `None` exactly where
/// none fails. By number: 32 where a lower bound is above its upper bound, 35 where a handler lists
/// a number twice, 36 where a frame or first activation is outside its limits, or a deadline is
/// below 10 or above its frame, 37 where an event is not used by exactly one process, 39 where a
/// handler has a number that it may not have, 40 where there is no process, or one process,
/// monitor, device or event too many, 41 for the condition and 42 for the routine or entry that is
/// one too many, 43 where variables have too many words, 44 where an array is too long. The only
/// error is want of memory.
pub fn first_broken(
    alloc: Global,
    declarations: &Declarations<'_>,
) -> Result<Option<Violation>, OutOfMemory>
    ensures { IfOk result (λ first. IsFirstOf (LimitFails (placed declarations.now)) first) }
{
    let bounds = bounds::first_broken(declarations);
    let activations = activations::first_broken(declarations);
    let events = events::first_broken(alloc, declarations)?;
    let handlers = handlers::first_broken(alloc, declarations)?;
    let counts = counts::first_broken(alloc, declarations)?;
    Ok(sooner(
        bounds,
        sooner(activations, sooner(events, sooner(handlers, counts))),
    ))
}
