//! All tests, in their order.

ghost use Rattle.std.specs.Prelude.{◌≡◌, IfOk, None};
ghost use Rattle.image.specs.Raw.{image_of};
ghost use Rattle.valid_image.specs.Shape.{shape_fault};
ghost use Rattle.valid_image.specs.Times.{rank_fault};
ghost use Rattle.valid_image.specs.Valid.{HasLimits};
ghost use Rattle.loader.specs.Parts.{AreParts};
ghost use Rattle.loader.specs.Verified.{HasRanges};
ghost use Rattle.faulty_part.specs.Parts.{bound_part, handler_part, part_fault as defined_fault};
ghost use Rattle.validity_parts.specs.Found.{after_code, after_operands, declared_part, times_part};

use crate::bounds::bound_part_fault;
use crate::code::code_part_fault;
use crate::costs::cost_part_fault;
use crate::operands::operand_part_fault;
use crate::ranks::rank_part_fault;
use crate::sizes::size_part_fault;
use faulty_part::{FaultyPart, PartFault, Subject};
use image::RawImage;
use loader::{CodeCosts, first_fault, handler_fault, longest_stays, task_set, waits_table};
use out_of_memory::OutOfMemory;
use std::alloc::Global;

/// The first process with a wrong handler.
fn handler_part_fault(alloc: Global, raw: &RawImage) -> Result<Option<PartFault>, OutOfMemory>
    ensures { IfOk result (λ found. found ≡ handler_part (image_of raw.now)) }
{
    let waits = waits_table(alloc, raw)?;
    match handler_fault(raw, waits.as_slice()) {
        Some(fault) => Ok(Some(PartFault {
            part: FaultyPart::Process(fault.a as usize),
            subject: Subject::Handler,
            a: fault.a,
            b: fault.b,
        })),
        None => Ok(None),
    }
}

/// The first fault of a bound, where ranks, ceilings and blocks have none.
fn bounds_fault(alloc: Global, raw: &RawImage) -> Result<Option<PartFault>, OutOfMemory>
    requires limits { HasLimits (image_of raw.now) }
    requires ranks { rank_fault (image_of raw.now) ≡ None }
    ensures { IfOk result (λ found. found ≡ bound_part (image_of raw.now)) }
{
    let set = task_set(alloc, raw)?;
    Ok(bound_part_fault(raw, &set))
}

/// The first fault of a rank, a ceiling, a block or a bound.
fn times_fault(alloc: Global, raw: &RawImage) -> Result<Option<PartFault>, OutOfMemory>
    requires { HasRanges raw.now }
    ensures { IfOk result (λ found. found ≡ times_part (image_of raw.now)) }
{
    let stays = longest_stays(alloc, raw)?;
    match rank_part_fault(raw, &stays) {
        Some(fault) => Ok(Some(fault)),
        None => bounds_fault(alloc, raw),
    }
}

/// The first fault of a cost or a size.
fn declared_fault(raw: &RawImage, parts: &CodeCosts) -> Option<PartFault>
    requires ranges { HasRanges raw.now }
    requires parts { AreParts raw.now parts.now }
    ensures { result ≡ declared_part (image_of raw.now) }
{
    match cost_part_fault(raw, parts) {
        Some(fault) => Some(fault),
        None => size_part_fault(raw, parts),
    }
}

/// The first fault of a handler, a cost, a size or a time, where all code is of its trees.
fn fault_behind_code(
    alloc: Global,
    raw: &RawImage,
    parts: &CodeCosts,
) -> Result<Option<PartFault>, OutOfMemory>
    requires ranges { HasRanges raw.now }
    requires parts { AreParts raw.now parts.now }
    ensures { IfOk result (λ found. found ≡ after_code (image_of raw.now)) }
{
    if let Some(fault) = handler_part_fault(alloc, raw)? {
        return Ok(Some(fault));
    }
    match declared_fault(raw, parts) {
        Some(fault) => Ok(Some(fault)),
        None => times_fault(alloc, raw),
    }
}

/// The first fault behind those of operands.
fn fault_behind_operands(alloc: Global, raw: &RawImage) -> Result<Option<PartFault>, OutOfMemory>
    requires { HasRanges raw.now }
    ensures { IfOk result (λ found. found ≡ after_operands (image_of raw.now)) }
{
    let mut parts = CodeCosts::new(alloc);
    match code_part_fault(raw, &mut parts)? {
        Some(fault) => Ok(Some(fault)),
        None => fault_behind_code(alloc, raw, &parts),
    }
}

/// The first fault of all.
fn first_part(alloc: Global, raw: &RawImage) -> Result<Option<PartFault>, OutOfMemory>
    requires { HasRanges raw.now }
    ensures { IfOk result (λ found. found ≡ defined_fault (image_of raw.now)) }
{
    match operand_part_fault(alloc, raw)? {
        Some(fault) => Ok(Some(fault)),
        None => fault_behind_operands(alloc, raw),
    }
}

/// The first test that the image fails, in the order of the tests, with its part and its subject;
/// none exactly where the image is valid; or that memory is short.
pub fn part_fault(alloc: Global, raw: &RawImage) -> Result<Option<PartFault>, OutOfMemory>
    requires { HasRanges raw.now }
    ensures { IfOk result (λ found. found ≡ defined_fault (image_of raw.now)) }
{
    match first_fault(alloc, raw)? {
        Some(_) => first_part(alloc, raw),
        None => Ok(None),
    }
}
