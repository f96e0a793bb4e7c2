//! What fits of each process.

ghost use Rattle.std.specs.Prelude.{◌≡◌, ◌<◌, length, All, IfOk};
ghost use Rattle.sched_sensitivity.specs.Rows.{AreFitsOf, IsFitOf, IsSuspensionOf};

use crate::rows::{ProcessFit, SuspensionFit};
use crate::{Varied, fit_of};
use out_of_memory::OutOfMemory;
use sched_response::TaskSet;
use std::alloc::Global;
use syntax_tree::{List, Name};

/// The suspension of a level that waits, with what fits in its place. The set is afterwards as
/// before.
fn suspension_fit(set: &mut TaskSet, level: usize) -> Option<SuspensionFit>
    requires { level < length set.old }
    ensures kept { set.new ≡ set.old }
    ensures fit { IsSuspensionOf set.old level result }
{
    if set.waits(level) == 0 {
        return None;
    }
    let ticks = set.susp(level);
    let fits = fit_of(set, Varied::Suspension, level);
    Some(SuspensionFit { ticks, fits })
}

/// What fits of the process of a level. The set is afterwards as before.
fn process_fit(
    alloc: Global,
    set: &mut TaskSet,
    name: &Name,
    level: usize,
) -> Result<ProcessFit, OutOfMemory>
    requires { level < length set.old }
    ensures kept { set.new ≡ set.old }
    ensures fit { IfOk result (λ fit. IsFitOf set.old level name.now fit) }
{
    let cost = set.run(level);
    let cost_fits = fit_of(set, Varied::Cost, level);
    let suspension = suspension_fit(set, level);
    let name = Name::new(alloc, name.as_bytes())?;
    Ok(ProcessFit {
        name,
        cost,
        cost_fits,
        suspension,
    })
}

/// What fits of each process of these names and levels: the greatest cost, and the greatest
/// suspension of one that waits. Only want of memory is an error. The set is afterwards as before.
pub fn process_fits(
    alloc: Global,
    set: &mut TaskSet,
    names: &[Name],
    order: &[usize],
) -> Result<List<ProcessFit>, OutOfMemory>
    requires one_each { length order.now ≡ length names.now }
    requires order { All (λ level. level < length set.old) order.now }
    ensures kept { set.new ≡ set.old }
    ensures fits { IfOk result (AreFitsOf set.old order.now names.now) }
{
    let mut fits = List::new(alloc);
    for number in 0..names.len() {
        let fit = process_fit(alloc, set, &names[number], order[number])?;
        fits.push(fit)?;
    }
    Ok(fits)
}
