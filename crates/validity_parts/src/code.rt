//! Starts, trees, heights and coverage, each with its routine or process.

ghost use Rattle.std.specs.Prelude.{◌≡◌, ◌≤◌, [], IfNone, IfOk, length};
ghost use Rattle.image.specs.Raw.{image_of};
ghost use Rattle.valid_image.specs.Fault.{first_in};
ghost use Rattle.valid_image.specs.Pieces.{due_start, pieces};
ghost use Rattle.loader.specs.Parts.{AreParts, AreRoutines};
ghost use Rattle.faulty_part.specs.declared.part.FaultyPart.TheVariants as part;
ghost use Rattle.faulty_part.specs.declared.part.Subject.TheVariants as subject;
ghost use Rattle.faulty_part.specs.Parts.{code_of_process, code_of_routine, code_part};

use faulty_part::{FaultyPart, PartFault, Subject};
use image::RawImage;
use loader::{CodeCosts, ProcessCost, known_routine, process_due, routine_due};
use loader_code::PartCost;
use out_of_memory::OutOfMemory;

/// The fault of the routine behind those that are kept, which is declared to start there.
fn wrong_routine(kept: &[PartCost], start: u32) -> PartFault
    ensures { result ≡ record {
      part = part.Routine (length kept.now);
      subject = subject.Code;
      a = start;
      b = 0;
    } }
{
    PartFault {
        part: FaultyPart::Routine(kept.len()),
        subject: Subject::Code,
        a: u64::from(start),
        b: 0,
    }
}

/// The fault of the process behind those that are kept, likewise.
fn wrong_process(kept: &[ProcessCost], start: u32) -> PartFault
    ensures { result ≡ record {
      part = part.Process (length kept.now);
      subject = subject.Code;
      a = start;
      b = 0;
    } }
{
    PartFault {
        part: FaultyPart::Process(kept.len()),
        subject: Subject::Code,
        a: u64::from(start),
        b: 0,
    }
}

/// The fault of code from an address on that nobody has.
fn uncovered(address: usize) -> PartFault
    ensures { result ≡ record { part = part.Whole; subject = subject.Code; a = address; b = 0 } }
{
    PartFault {
        part: FaultyPart::Whole,
        subject: Subject::Code,
        a: address as u64,
        b: 0,
    }
}

/// The first routine whose start or code is wrong. Keeps what the code of those before it comes to.
fn routines_fault(raw: &RawImage, parts: &mut CodeCosts) -> Result<Option<PartFault>, OutOfMemory>
    requires known { parts.old.known ≡ [] }
    requires routines { parts.old.routines ≡ [] }
    requires end { parts.old.end ≡ 0 }
    ensures fault { IfOk result (λ found. found ≡
        first_in (code_of_routine (image_of raw.now)) (image_of raw.now).routines) }
    ensures kept { IfOk result (λ found. IfNone found (AreRoutines raw.now parts.new)) }
    ensures end { IfOk result (λ found. IfNone found ((parts.new.end ≡
        due_start (pieces (image_of raw.now)) (length raw.now.routines)) ×
        (parts.new.end ≤ length raw.now.code))) }
    ensures processes { parts.new.processes ≡ parts.old.processes }
{
    for routine in raw.routines.as_slice() {
        let part = match routine_due(
            raw.code.as_slice(),
            parts.known.as_slice(),
            routine,
            parts.end,
        ) {
            Some(part) => part,
            None => return Ok(Some(wrong_routine(parts.routines.as_slice(), routine.start))),
        };
        parts.end = part.found.next + 1;
        parts.known.push(known_routine(routine, part.found.depth))?;
        parts.routines.push(part)?;
    }
    Ok(None)
}

/// The first process whose start or code is wrong, likewise.
fn processes_fault(raw: &RawImage, parts: &mut CodeCosts) -> Result<Option<PartFault>, OutOfMemory>
    requires routines { AreRoutines raw.now parts.old }
    requires processes { parts.old.processes ≡ [] }
    requires due { parts.old.end ≡ due_start (pieces (image_of raw.now)) (length raw.now.routines) }
    requires within { parts.old.end ≤ length raw.now.code }
    ensures fault { IfOk result (λ found. found ≡
        first_in (code_of_process (image_of raw.now)) (image_of raw.now).processes) }
    ensures kept { IfOk result (λ found. IfNone found (AreParts raw.now parts.new)) }
    ensures end { IfOk result (λ found. IfNone found (parts.new.end ≡
        due_start (pieces (image_of raw.now)) (length (pieces (image_of raw.now))))) }
{
    for process in raw.processes.as_slice() {
        let found = match process_due(
            raw.code.as_slice(),
            parts.known.as_slice(),
            process,
            parts.end,
        ) {
            Some(found) => found,
            None => return Ok(Some(wrong_process(parts.processes.as_slice(), process.start))),
        };
        parts.end = found.end;
        parts.processes.push(found)?;
    }
    Ok(None)
}

/// The first routine or process that does not start where the one before it ends, or whose code is
/// not of its tree, or breaks a rule of heights; or the first address that none of them covers.
/// Where there is none, the parts are kept.
pub fn code_part_fault(
    raw: &RawImage,
    parts: &mut CodeCosts,
) -> Result<Option<PartFault>, OutOfMemory>
    requires known { parts.old.known ≡ [] }
    requires routines { parts.old.routines ≡ [] }
    requires processes { parts.old.processes ≡ [] }
    requires end { parts.old.end ≡ 0 }
    ensures fault { IfOk result (λ found. found ≡ code_part (image_of raw.now)) }
    ensures kept { IfOk result (λ found. IfNone found (AreParts raw.now parts.new)) }
{
    if let Some(fault) = routines_fault(raw, parts)? {
        return Ok(Some(fault));
    }
    if let Some(fault) = processes_fault(raw, parts)? {
        return Ok(Some(fault));
    }
    if parts.end != raw.code.len() {
        return Ok(Some(uncovered(parts.end)));
    }
    Ok(None)
}
