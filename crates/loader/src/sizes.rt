//! Declared sizes.

ghost use Rattle.std.specs.Prelude.{◌≡◌, ◌≤◌, ◌*◌, length, map, sum_by};
ghost use Rattle.loader_code.specs.TreesTold.{found_of};
ghost use Rattle.image.specs.Raw.{image_of, monitor_of, process_of, routine_of};
ghost use Rattle.valid_image.specs.Fault.{first_in};
ghost use Rattle.valid_image.specs.Sizes.{below as defined_below, needed_stack, params_fault as defined_params, size_fault as defined_fault, stack_fault as defined_stack, words_fault as defined_words};
ghost use Rattle.loader_code.specs.Told.{told as shown};
ghost use Rattle.loader.specs.Costs.{stack_needs};
ghost use Rattle.loader.specs.Parts.{AreParts};

use crate::costs::{below, first_fault};
use crate::parts::{CodeCosts, ProcessCost};
use image::{RawImage, RawMonitor, RawProcess, RawRoutine};
use loader_code::{FaultNumbers, TOO_DEEP, base_fault};

/// The arguments of a routine are among its locals.
fn params_fault(routines: &[RawRoutine]) -> Option<FaultNumbers>
    ensures { shown result ≡ first_in (λ r x. defined_below x.locals x.params)
        (map routine_of routines.now) }
{
    for routine in routines {
        match below(u64::from(routine.locals), u64::from(routine.params)) {
            Some(fault) => return Some(fault),
            None => {}
        }
    }
    None
}

/// The stack of a process, where it is below its locals and the depth of its code, with these.
pub fn stack_shortfall(process: &RawProcess, found: &ProcessCost) -> Option<FaultNumbers>
    ensures { shown result ≡ stack_needs (process_of process.now) (found_of found.now.body)
        (found_of found.now.handler) }
{
    let depth = found.body.depth.max(found.handler.depth).min(TOO_DEEP);
    below(
        u64::from(process.stack),
        u64::from(process.locals) + u64::from(depth),
    )
}

fn stack_fault(raw: &RawImage, parts: &CodeCosts) -> Option<FaultNumbers>
    requires { AreParts raw.now parts.now }
    ensures { shown result ≡ defined_stack (image_of raw.now) }
{
    let processes = raw.processes.as_slice();
    let kept = parts.processes.as_slice();
    for k in 0..processes.len() {
        match stack_shortfall(&processes[k], &kept[k]) {
            Some(fault) => return Some(fault),
            None => {}
        }
    }
    None
}

/// The words of all monitors.
fn monitor_words(monitors: &[RawMonitor]) -> u64
    requires { length monitors.now ≤ 65535 }
    ensures value { result ≡ sum_by (λ m. m.words) (map monitor_of monitors.now) }
    ensures small { result ≤ 4294967295 * 65535 }
{
    let mut words = 0;
    for monitor in monitors {
        words += u64::from(monitor.words);
    }
    words
}

/// The words of all processes.
fn process_words(processes: &[RawProcess]) -> u64
    requires { length processes.now ≤ 65535 }
    ensures value { result ≡ sum_by (λ p. p.words) (map process_of processes.now) }
    ensures small { result ≤ 4294967295 * 65535 }
{
    let mut words = 0;
    for process in processes {
        words += u64::from(process.words);
    }
    words
}

/// The words of all monitors and all processes are within their limit.
fn words_fault(raw: &RawImage) -> Option<FaultNumbers>
    requires monitors { length raw.now.monitors ≤ 65535 }
    requires processes { length raw.now.processes ≤ 65535 }
    ensures { shown result ≡ defined_words (image_of raw.now) }
{
    below(
        1_048_576,
        monitor_words(raw.monitors.as_slice()) + process_words(raw.processes.as_slice()),
    )
}

/// The first routine with fewer locals than parameters; else the first process whose stack is too
/// small for its code; else the first monitor whose words do not stand right after those of the one
/// before; else too many words over all.
pub fn size_fault(raw: &RawImage, parts: &CodeCosts) -> Option<FaultNumbers>
    requires parts { AreParts raw.now parts.now }
    requires monitors { length raw.now.monitors ≤ 65535 }
    requires processes { length raw.now.processes ≤ 65535 }
    ensures { shown result ≡ defined_fault (image_of raw.now) }
{
    let areas = first_fault(base_fault(raw.monitors.as_slice()), words_fault(raw));
    let frames = first_fault(stack_fault(raw, parts), areas);
    first_fault(params_fault(raw.routines.as_slice()), frames)
}
