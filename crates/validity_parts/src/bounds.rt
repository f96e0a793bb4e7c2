//! Declared bounds, each with its process.

ghost use Rattle.std.specs.Prelude.{◌≡◌, ◌-◌, ◌<◌, None, cond, length, nat_lt};
ghost use Rattle.image.specs.Raw.{image_of, process_of};
ghost use Rattle.valid_image.specs.Tasks.{tasks_of};
ghost use Rattle.valid_image.specs.Times.{rank_fault};
ghost use Rattle.faulty_part.specs.declared.part.Subject.TheVariants as subject;
ghost use Rattle.faulty_part.specs.Parts.{bound_part};
ghost use Rattle.validity_parts.specs.Found.{bound_by};

use faulty_part::{FaultyPart, PartFault, Subject};
use image::{RawImage, RawProcess};
use loader::declared_fault;
use loader_code::FaultNumbers;
use sched_response::TaskSet;

/// Which test of a bound fails. Only where it does not meet the recurrence the second number is the
/// greater one.
fn subject_of(fault: FaultNumbers) -> Subject
    ensures { result ≡ cond (nat_lt fault.a fault.b) subject.Bound subject.Deadline }
{
    if fault.a < fault.b {
        Subject::Bound
    } else {
        Subject::Deadline
    }
}

/// What is wrong with the bound of a process: it does not meet the recurrence, or is above the
/// deadline.
fn process_fault(set: &TaskSet, number: usize, process: &RawProcess) -> Option<PartFault>
    requires { process.now.rank - 1 < length set.now }
    ensures { result ≡ bound_by set.now number (process_of process.now) }
{
    match declared_fault(set, process.rank, process.bound, process.deadline) {
        Some(fault) => Some(PartFault {
            part: FaultyPart::Process(number),
            subject: subject_of(fault),
            a: fault.a,
            b: fault.b,
        }),
        None => None,
    }
}

/// The first process whose bound does not meet the recurrence, or is above its deadline.
pub fn bound_part_fault(raw: &RawImage, set: &TaskSet) -> Option<PartFault>
    requires ranks { rank_fault (image_of raw.now) ≡ None }
    requires set { set.now ≡ tasks_of (image_of raw.now) }
    ensures { result ≡ bound_part (image_of raw.now) }
{
    let processes = raw.processes.as_slice();
    for number in 0..processes.len() {
        match process_fault(set, number, &processes[number]) {
            Some(fault) => return Some(fault),
            None => {}
        }
    }
    None
}
