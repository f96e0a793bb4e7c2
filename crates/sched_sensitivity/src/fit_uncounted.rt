//! What fits, for a caller that counts nothing.

ghost use Rattle.std.specs.Prelude.{◌≡◌, ◌<◌, length, IfOk};
ghost use Rattle.sched_response.specs.Demand.{AreTasks};
ghost use Rattle.sched_sensitivity.specs.Fit.{IsFit};
ghost use Rattle.sched_sensitivity.specs.Overhead.{IsOverheadFit};

use crate::fitting::{Varied, fit};
use crate::overhead::overhead_fit;
use out_of_memory::OutOfMemory;
use sched_response::{Steps, Task, TaskSet};
use std::alloc::Global;
use std::marker::Brand;
use std::sync::ledger::{Blank, Ledger};

/// What fits, over a new count.
fn with_count<L: Ledger>(
    blank: Blank,
    set: &mut TaskSet,
    number: Varied,
    level: usize,
) -> Option<u64>
    requires name { blank.name ≡ L.name }
    requires parts { blank.parts ≡ L.parts }
    requires some { 0 < L.parts }
    requires level { level < length set.old }
    ensures kept { set.new ≡ set.old }
    ensures fit { IsFit number set.old level result }
{
    fit(set, number, level, &mut Steps::<L>::open(blank))
}

/// The greatest number of ticks that can stand in the place of this number of the level while each
/// level has a bound, and None exactly where 0 cannot. The set is afterwards as before.
pub fn fit_of(set: &mut TaskSet, number: Varied, level: usize) -> Option<u64>
    requires { level < length set.old }
    ensures kept { set.new ≡ set.old }
    ensures fit { IsFit number set.old level result }
{
    with_count::<Brand>(Blank::new(1), set, number, level)
}

/// Which overhead fits, over a new count.
fn overhead_with_count<L: Ledger>(
    blank: Blank,
    alloc: Global,
    tasks: &[Task],
) -> Result<Option<u64>, OutOfMemory>
    requires name { blank.name ≡ L.name }
    requires parts { blank.parts ≡ L.parts }
    requires some { 0 < L.parts }
    requires tasks { AreTasks tasks.now }
    ensures { IfOk result (λ fit. IsOverheadFit tasks.now fit) }
{
    overhead_fit(alloc, tasks, &mut Steps::<L>::open(blank))
}

/// The greatest overhead of at most 1,000 ticks with which each level of the tasks, whose costs
/// hold no dispatch yet, has a bound, and None exactly where 0 does not do. Only want of memory is
/// an error.
pub fn overhead_fit_of(alloc: Global, tasks: &[Task]) -> Result<Option<u64>, OutOfMemory>
    requires { AreTasks tasks.now }
    ensures { IfOk result (λ fit. IsOverheadFit tasks.now fit) }
{
    overhead_with_count::<Brand>(Blank::new(1), alloc, tasks)
}
