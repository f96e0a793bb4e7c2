//! A fault with its part.

ghost use Rattle.std.specs.Prelude.{◌≡◌};
ghost use Rattle.valid_image.specs.Fault.{or_else};
ghost use Rattle.valid_image.specs.Sizes as defined;
ghost use Rattle.loader_code.specs.Told.{told};
ghost use Rattle.faulty_part.specs.Parts.{of};

use faulty_part::{FaultyPart, PartFault, Subject};
use loader_code::FaultNumbers;

/// The fault of the part, if there is one.
pub fn named(part: FaultyPart, subject: Subject, fault: Option<FaultNumbers>) -> Option<PartFault>
    ensures { result ≡ of part subject (told fault) }
{
    match fault {
        Some(FaultNumbers { a, b }) => Some(PartFault {
            part,
            subject,
            a,
            b,
        }),
        None => None,
    }
}

/// A number that the part declares below the one that is needed.
pub fn below(part: FaultyPart, subject: Subject, declared: u64, needed: u64) -> Option<PartFault>
    ensures { result ≡ of part subject (defined.below declared needed) }
{
    if needed <= declared {
        return None;
    }
    Some(PartFault {
        part,
        subject,
        a: declared,
        b: needed,
    })
}

/// A number that the part declares, other than the one that is due.
pub fn other(part: FaultyPart, subject: Subject, declared: u64, due: u64) -> Option<PartFault>
    ensures { result ≡ of part subject (defined.other declared due) }
{
    if declared == due {
        return None;
    }
    Some(PartFault {
        part,
        subject,
        a: declared,
        b: due,
    })
}

/// The first of two faults.
pub fn first(first: Option<PartFault>, second: Option<PartFault>) -> Option<PartFault>
    ensures { result ≡ or_else first second }
{
    match first {
        Some(fault) => Some(fault),
        None => second,
    }
}
