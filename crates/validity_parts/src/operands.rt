//! Whose instruction it is that breaks a rule.

ghost use Rattle.std.specs.Prelude.{◌≡◌, ◌≤◌, cond, IfOk, None, Some, length, map};
ghost use Rattle.image.specs.Raw.{image_of};
ghost use Rattle.valid_image.specs.Operands.{operand_fault as defined_fault};
ghost use Rattle.valid_image.specs.Pieces.{closest, piece_of_routine, pieces};
ghost use Rattle.loader_code.specs.Told.{told};
ghost use Rattle.faulty_part.specs.Parts.{operand_part};
ghost use Rattle.validity_parts.specs.Found.{IsOwner, is_closer};

use faulty_part::{FaultyPart, PartFault, Subject};
use image::{RawImage, RawProcess, RawRoutine};
use loader_code::{FaultNumbers, operand_fault};
use out_of_memory::OutOfMemory;
use std::alloc::Global;

/// A piece of code, by its routine or process and its start.
#[derive(Clone, Copy)]
struct CodePiece {
    part: FaultyPart,
    start: u32,
}

/// Whether a piece that starts there is closer to the address than the best so far.
fn comes_closer(best: Option<CodePiece>, start: u32, address: u64) -> bool
    ensures { result ≡ is_closer best start address }
{
    match best {
        Some(best) => u64::from(start) <= address && best.start <= start,
        None => u64::from(start) <= address,
    }
}

/// The closer of the best so far and of the next piece.
fn closer(best: Option<CodePiece>, part: FaultyPart, start: u32, address: u64) -> Option<CodePiece>
    ensures { result ≡ cond (is_closer best start address)
        (Some (record { part = part; start = start })) best }
{
    if comes_closer(best, start, address) {
        Some(CodePiece { part, start })
    } else {
        best
    }
}

/// The routine that the address belongs to, where no process is closer.
fn closest_routine(raw: &RawImage, address: u64) -> Option<CodePiece>
    ensures { IsOwner (length raw.now.routines) result
        (closest (map piece_of_routine (image_of raw.now).routines) 0 address None) }
{
    let routines = raw.routines.as_slice();
    let mut best = None;
    for number in 0..routines.len() {
        let part = FaultyPart::Routine(number);
        best = closer(best, part, routines[number].start, address);
    }
    best
}

/// The routine or process that the address belongs to.
fn closest_piece(raw: &RawImage, address: u64) -> Option<CodePiece>
    ensures { IsOwner (length raw.now.routines) result
        (closest (pieces (image_of raw.now)) 0 address None) }
{
    let processes = raw.processes.as_slice();
    let mut best = closest_routine(raw, address);
    for number in 0..processes.len() {
        let part = FaultyPart::Process(number);
        best = closer(best, part, processes[number].start, address);
    }
    best
}

/// The first instruction that breaks a rule, with its part.
fn at_address(raw: &RawImage, fault: FaultNumbers) -> Option<PartFault>
    requires { told (Some fault) ≡ defined_fault (image_of raw.now) }
    ensures { result ≡ operand_part (image_of raw.now) }
{
    match closest_piece(raw, fault.a) {
        Some(piece) => Some(PartFault {
            part: piece.part,
            subject: Subject::Operand,
            a: fault.a,
            b: fault.b,
        }),
        None => None,
    }
}

/// The first instruction that breaks a rule, with the routine or process that its address belongs
/// to; or that memory is short.
pub fn operand_part_fault(alloc: Global, raw: &RawImage) -> Result<Option<PartFault>, OutOfMemory>
    requires { length raw.now.processes ≤ 64 }
    ensures { IfOk result (λ found. found ≡ operand_part (image_of raw.now)) }
{
    match operand_fault(alloc, raw)? {
        Some(fault) => Ok(at_address(raw, fault)),
        None => Ok(None),
    }
}
