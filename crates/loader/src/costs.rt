//! Declared costs.

ghost use Rattle.std.specs.Prelude.{◌≡◌, ◌≤◌, ◌+◌, ◌*◌, map};
ghost use Rattle.loader_code.specs.TreesTold.{found_of};
ghost use Rattle.image.specs.Raw.{image_of, process_of, routine_of};
ghost use Rattle.base.specs.Capped.{cap};
ghost use Rattle.valid_image.specs.Fault.{first_in, or_else};
ghost use Rattle.valid_image.specs.Sizes.{below as defined_below, cost_fault as defined_fault, process_cost_fault, routine_cost_fault, with_dispatch};
ghost use Rattle.valid_image.specs.Found.{longer, plus};
ghost use Rattle.loader_code.specs.Told.{told as shown};
ghost use Rattle.loader.specs.Costs.{process_needs, routine_needs};
ghost use Rattle.loader.specs.Parts.{AreParts};

use crate::parts::{CodeCosts, ProcessCost};
use base::{Cost, OVER, cap_add};
use image::{RawImage, RawProcess, RawRoutine};
use loader_code::{FaultNumbers, PartCost};

/// A declared number below the one that is needed.
pub fn below(declared: u64, needed: u64) -> Option<FaultNumbers>
    ensures { shown result ≡ defined_below declared needed }
{
    if needed <= declared {
        None
    } else {
        Some(FaultNumbers {
            a: declared,
            b: needed,
        })
    }
}

/// The first of two faults.
pub fn first_fault(
    first: Option<FaultNumbers>,
    second: Option<FaultNumbers>,
) -> Option<FaultNumbers>
    ensures { shown result ≡ or_else (shown first) (shown second) }
{
    match first {
        Some(fault) => Some(fault),
        None => second,
    }
}

/// The sum of two numbers of any size, capped.
fn cap_sum(a: u64, b: u64) -> u64
    ensures { result ≡ cap (a + b) }
{
    cap_add(a.min(OVER), b.min(OVER))
}

/// Two dispatches at the release, and two after each wait, capped.
fn dispatches(over: u16, waits: u64) -> u64
    requires { waits ≤ OVER }
    ensures { result ≡ cap (2 * over * (1 + waits)) }
{
    (2 * u64::from(over) * (1 + waits)).min(OVER)
}

/// The first number that a routine declares below what its code comes to, with that.
pub fn routine_shortfall(routine: &RawRoutine, part: &PartCost) -> Option<FaultNumbers>
    ensures { shown result ≡ routine_needs (routine_of routine.now)
        (found_of part.now.found) part.now.stay }
{
    let cost = &part.found.cost;
    let times = first_fault(
        below(u64::from(routine.run), cap_sum(4, cost.run)),
        below(u64::from(routine.susp), cost.susp.min(OVER)),
    );
    let stays = first_fault(
        below(u64::from(routine.waits), cost.waits.min(OVER)),
        below(u64::from(routine.stay), part.stay),
    );
    first_fault(times, stays)
}

/// The run of a process, of its body, its handler and its END, with its dispatches.
fn process_run(over: u16, body: &Cost, handler: &Cost) -> u64
    ensures { result ≡ cap (with_dispatch over (longer 4 (plus body.now handler.now))) }
{
    let code = cap_sum(4, cap_sum(body.run, handler.run));
    cap_sum(code, dispatches(over, cap_sum(body.waits, handler.waits)))
}

/// The first number that a process declares below what its code and its dispatches come to, with
/// that.
pub fn process_shortfall(
    over: u16,
    process: &RawProcess,
    found: &ProcessCost,
) -> Option<FaultNumbers>
    ensures { shown result ≡ process_needs over (process_of process.now) (found_of found.now.body)
        (found_of found.now.handler) }
{
    let body = &found.body.cost;
    let handler = &found.handler.cost;
    let susp = below(u64::from(process.susp), cap_sum(body.susp, handler.susp));
    let waits = below(u64::from(process.waits), cap_sum(body.waits, handler.waits));
    first_fault(
        below(u64::from(process.run), process_run(over, body, handler)),
        first_fault(susp, waits),
    )
}

fn routines_fault(raw: &RawImage, parts: &CodeCosts) -> Option<FaultNumbers>
    requires { AreParts raw.now parts.now }
    ensures { shown result ≡ first_in (routine_cost_fault (image_of raw.now))
        (image_of raw.now).routines }
{
    let routines = raw.routines.as_slice();
    let kept = parts.routines.as_slice();
    for r in 0..routines.len() {
        match routine_shortfall(&routines[r], &kept[r]) {
            Some(fault) => return Some(fault),
            None => {}
        }
    }
    None
}

fn processes_fault(raw: &RawImage, parts: &CodeCosts) -> Option<FaultNumbers>
    requires { AreParts raw.now parts.now }
    ensures { shown result ≡ first_in (λ k p. process_cost_fault (image_of raw.now) p)
        (image_of raw.now).processes }
{
    let processes = raw.processes.as_slice();
    let kept = parts.processes.as_slice();
    for k in 0..processes.len() {
        match process_shortfall(raw.overhead, &processes[k], &kept[k]) {
            Some(fault) => return Some(fault),
            None => {}
        }
    }
    None
}

/// The first declared run, suspension, waits or stay below what the code comes to.
pub fn cost_fault(raw: &RawImage, parts: &CodeCosts) -> Option<FaultNumbers>
    requires { AreParts raw.now parts.now }
    ensures { shown result ≡ defined_fault (image_of raw.now) }
{
    match routines_fault(raw, parts) {
        Some(fault) => Some(fault),
        None => processes_fault(raw, parts),
    }
}
