//! Declared costs, each with its routine or process.

ghost use Rattle.std.specs.Prelude.{◌≡◌, ◌≤◌, ◌+◌, ◌*◌};
ghost use Rattle.base.specs.Capped.{cap};
ghost use Rattle.image.specs.Raw.{image_of, process_of, routine_of};
ghost use Rattle.valid_image.specs.Fault.{first_in};
ghost use Rattle.valid_image.specs.Found.{longer, plus};
ghost use Rattle.valid_image.specs.Sizes.{with_dispatch};
ghost use Rattle.loader_code.specs.TreesTold.{found_of};
ghost use Rattle.loader.specs.Parts.{AreParts};
ghost use Rattle.faulty_part.specs.Parts.{cost_of_process, cost_of_routine, cost_part};
ghost use Rattle.validity_parts.specs.Found.{process_cost_by, routine_cost_by};

use crate::naming::{below, first};
use base::{Cost, OVER, cap_add};
use faulty_part::{FaultyPart, PartFault, Subject};
use image::{RawImage, RawProcess, RawRoutine};
use loader::{CodeCosts, ProcessCost};
use loader_code::PartCost;

/// The sum of two numbers of any size, capped.
fn cap_sum(a: u64, b: u64) -> u64
    ensures { result ≡ cap (a + b) }
{
    cap_add(a.min(OVER), b.min(OVER))
}

/// What a routine declares below what its code comes to.
fn routine_fault(number: usize, routine: &RawRoutine, code: &PartCost) -> Option<PartFault>
    ensures { result ≡ routine_cost_by number (routine_of routine.now)
        (found_of code.now.found) code.now.stay }
{
    let part = FaultyPart::Routine(number);
    let cost = &code.found.cost;
    let (susp, waits) = (cost.susp.min(OVER), cost.waits.min(OVER));
    let times = first(
        below(
            part,
            Subject::Run,
            u64::from(routine.run),
            cap_sum(4, cost.run),
        ),
        below(part, Subject::Suspension, u64::from(routine.susp), susp),
    );
    let stays = first(
        below(part, Subject::Waits, u64::from(routine.waits), waits),
        below(part, Subject::Stay, u64::from(routine.stay), code.stay),
    );
    first(times, stays)
}

/// Two dispatches at the release, and two after each wait, capped.
fn dispatches(over: u16, waits: u64) -> u64
    requires { waits ≤ OVER }
    ensures { result ≡ cap (2 * over * (1 + waits)) }
{
    (2 * u64::from(over) * (1 + waits)).min(OVER)
}

/// The run of a process, of its body, its handler and its END, with its dispatches.
fn process_run(over: u16, body: &Cost, handler: &Cost) -> u64
    ensures { result ≡ cap (with_dispatch over (longer 4 (plus body.now handler.now))) }
{
    let code = cap_sum(4, cap_sum(body.run, handler.run));
    cap_sum(code, dispatches(over, cap_sum(body.waits, handler.waits)))
}

/// What a process declares below what its code and its dispatches come to.
fn process_fault(
    over: u16,
    number: usize,
    process: &RawProcess,
    code: &ProcessCost,
) -> Option<PartFault>
    ensures { result ≡ process_cost_by over number (process_of process.now)
        (found_of code.now.body) (found_of code.now.handler) }
{
    let part = FaultyPart::Process(number);
    let (body, handler) = (&code.body.cost, &code.handler.cost);
    let run = process_run(over, body, handler);
    let susp = cap_sum(body.susp, handler.susp);
    let waits = cap_sum(body.waits, handler.waits);
    let later = first(
        below(part, Subject::Suspension, u64::from(process.susp), susp),
        below(part, Subject::Waits, u64::from(process.waits), waits),
    );
    first(
        below(part, Subject::Run, u64::from(process.run), run),
        later,
    )
}

/// The first routine that declares too little.
fn routines_fault(raw: &RawImage, parts: &CodeCosts) -> Option<PartFault>
    requires { AreParts raw.now parts.now }
    ensures { result ≡ first_in (cost_of_routine (image_of raw.now)) (image_of raw.now).routines }
{
    let routines = raw.routines.as_slice();
    let kept = parts.routines.as_slice();
    for r in 0..routines.len() {
        match routine_fault(r, &routines[r], &kept[r]) {
            Some(fault) => return Some(fault),
            None => {}
        }
    }
    None
}

/// The first process that declares too little.
fn processes_fault(raw: &RawImage, parts: &CodeCosts) -> Option<PartFault>
    requires { AreParts raw.now parts.now }
    ensures { result ≡ first_in (cost_of_process (image_of raw.now)) (image_of raw.now).processes }
{
    let processes = raw.processes.as_slice();
    let kept = parts.processes.as_slice();
    for k in 0..processes.len() {
        match process_fault(raw.overhead, k, &processes[k], &kept[k]) {
            Some(fault) => return Some(fault),
            None => {}
        }
    }
    None
}

/// The first declared run, suspension, number of waits or stay below what the code comes to.
pub fn cost_part_fault(raw: &RawImage, parts: &CodeCosts) -> Option<PartFault>
    requires { AreParts raw.now parts.now }
    ensures { result ≡ cost_part (image_of raw.now) }
{
    match routines_fault(raw, parts) {
        Some(fault) => Some(fault),
        None => processes_fault(raw, parts),
    }
}
