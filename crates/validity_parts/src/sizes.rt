//! Declared sizes, each with its routine, process or monitor.

ghost use Rattle.std.specs.Prelude.{◌≡◌, ◌≤◌, length};
ghost use Rattle.image.specs.Raw.{image_of};
ghost use Rattle.valid_image.specs.Fault.{first_in};
ghost use Rattle.loader.specs.Parts.{AreParts};
ghost use Rattle.faulty_part.specs.Parts.{base_of_monitor, locals_of_routine, size_part, stack_of_process};
ghost use Rattle.validity_parts.specs.Found.{sized_part};

use crate::naming::{below, named, other};
use faulty_part::{FaultyPart, PartFault, Subject};
use image::{RawImage, RawMonitor, RawProcess, RawRoutine};
use loader::{CodeCosts, size_fault, stack_shortfall};

/// The first routine with fewer locals than parameters.
fn routines_fault(raw: &RawImage) -> Option<PartFault>
    ensures { result ≡ first_in locals_of_routine (image_of raw.now).routines }
{
    let routines = raw.routines.as_slice();
    for r in 0..routines.len() {
        let routine = &routines[r];
        let part = FaultyPart::Routine(r);
        match below(
            part,
            Subject::Locals,
            routine.locals as u64,
            routine.params as u64,
        ) {
            Some(fault) => return Some(fault),
            None => {}
        }
    }
    None
}

/// The first process whose stack is too small for its code.
fn processes_fault(raw: &RawImage, parts: &CodeCosts) -> Option<PartFault>
    requires { AreParts raw.now parts.now }
    ensures { result ≡ first_in (stack_of_process (image_of raw.now)) (image_of raw.now).processes }
{
    let processes = raw.processes.as_slice();
    let kept = parts.processes.as_slice();
    for k in 0..processes.len() {
        let short = stack_shortfall(&processes[k], &kept[k]);
        match named(FaultyPart::Process(k), Subject::Stack, short) {
            Some(fault) => return Some(fault),
            None => {}
        }
    }
    None
}

/// The first monitor whose words do not stand right after those of the one before.
fn monitors_fault(raw: &RawImage) -> Option<PartFault>
    ensures { result ≡ first_in (base_of_monitor (image_of raw.now)) (image_of raw.now).monitors }
{
    let monitors = raw.monitors.as_slice();
    let mut due = 0;
    for m in 0..monitors.len() {
        let monitor = &monitors[m];
        let part = FaultyPart::Monitor(m);
        match other(part, Subject::Base, monitor.base as u64, due) {
            Some(fault) => return Some(fault),
            None => {}
        }
        due = monitor.base as u64 + monitor.words as u64;
    }
    None
}

/// The first of these.
fn part_too_small(raw: &RawImage, parts: &CodeCosts) -> Option<PartFault>
    requires { AreParts raw.now parts.now }
    ensures { result ≡ sized_part (image_of raw.now) }
{
    match routines_fault(raw) {
        Some(fault) => Some(fault),
        None => match processes_fault(raw, parts) {
            Some(fault) => Some(fault),
            None => monitors_fault(raw),
        },
    }
}

/// The first routine, process or monitor with a wrong size, else that there are too many words.
pub fn size_part_fault(raw: &RawImage, parts: &CodeCosts) -> Option<PartFault>
    requires parts { AreParts raw.now parts.now }
    requires monitors { length raw.now.monitors ≤ 65535 }
    requires processes { length raw.now.processes ≤ 65535 }
    ensures { result ≡ size_part (image_of raw.now) }
{
    match part_too_small(raw, parts) {
        Some(fault) => Some(fault),
        None => named(FaultyPart::Whole, Subject::Words, size_fault(raw, parts)),
    }
}
