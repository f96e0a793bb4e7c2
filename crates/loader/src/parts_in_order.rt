//! The tests of validity, in the order of the loader.
//!
//! No part of validity has a fault where an image is valid (`Valid` of `valid_image`). `first_fault`
//! promises the first fault of an image in the order of the tests, and none exactly where it is
//! valid; `fault_before_bounds` that of the parts that speak of the image alone, and not of the
//! recurrence. Both ask that the numbers are in the ranges of their fields. `validity_parts` asks
//! the first, of an image that runs by ranks; `image_loaded` the second, of one that runs by
//! deadlines.

ghost use Rattle.std.specs.Prelude.{◌≡◌, None, IfOk};
ghost use Rattle.image.specs.Raw.{image_of};
ghost use Rattle.valid_image.specs.Operands.{operand_fault};
ghost use Rattle.valid_image.specs.Shape.{shape_fault};
ghost use Rattle.valid_image.specs.Times.{rank_fault};
ghost use Rattle.loader.specs.Parts.{AreParts};
ghost use Rattle.valid_image.specs.Valid.{Bounds, Ranks, HasLimits, fault_of, shown as shown_of_part};
ghost use Rattle.loader.specs.Verified.{shown_by, code_fault_of, declared_fault_of, fault_before_bounds as first_before_bounds, HasRanges};

use crate::{
    CodeCosts, bound_fault, cost_fault, handler_fault, longest_stays, part, rank_fault,
    shape_fault, size_fault, task_set, waits_table,
};
use image::RawImage;
use loader_code::{FaultNumbers, operand_fault};
use out_of_memory::OutOfMemory;
use std::alloc::Global;

/// A fault, with the number of its part, from 1 to 7, and the two numbers that it shows.
#[derive(Clone, Copy)]
pub struct ValidityFault {
    pub number: u8,
    pub a: u64,
    pub b: u64,
}

/// The fault of the part.
fn of_part(number: u8, shown: FaultNumbers) -> ValidityFault
    ensures { result ≡ record { number = number; a = shown.a; b = shown.b } }
{
    ValidityFault {
        number,
        a: shown.a,
        b: shown.b,
    }
}

/// The first fault of bounds, of an image whose ranks, ceilings and blocks have none.
fn bounds_fault(alloc: Global, raw: &RawImage) -> Result<Option<ValidityFault>, OutOfMemory>
    requires limits { HasLimits (image_of raw.now) }
    requires ranks { rank_fault (image_of raw.now) ≡ None }
    ensures { IfOk result (λ found. shown_by found ≡ shown_of_part (image_of raw.now) Bounds) }
{
    let set = task_set(alloc, raw)?;
    match bound_fault(raw, &set) {
        Some(shown) => Ok(Some(of_part(part::BOUNDS, shown))),
        None => Ok(None),
    }
}

/// The first fault of ranks, ceilings and blocks.
fn ranks_fault(alloc: Global, raw: &RawImage) -> Result<Option<ValidityFault>, OutOfMemory>
    requires { HasLimits (image_of raw.now) }
    ensures { IfOk result (λ found. shown_by found ≡ shown_of_part (image_of raw.now) Ranks) }
{
    let stays = longest_stays(alloc, raw)?;
    match rank_fault(raw, &stays) {
        Some(shown) => Ok(Some(of_part(part::RANKS, shown))),
        None => Ok(None),
    }
}

/// The first fault of the parts between operands and bounds.
fn later_fault(alloc: Global, raw: &RawImage) -> Result<Option<ValidityFault>, OutOfMemory>
    requires ranges { HasRanges raw.now }
    requires operands { operand_fault (image_of raw.now) ≡ None }
    ensures { IfOk result (λ found. shown_by found ≡ first_before_bounds (image_of raw.now)) }
{
    match code_fault(alloc, raw)? {
        Some(found) => Ok(Some(found)),
        None => ranks_fault(alloc, raw),
    }
}

/// The first fault of all parts but bounds, in the order of the tests: operands, trees, handlers,
/// declared costs, sizes, and ranks with ceilings and blocks. None exactly where none of them has a
/// fault; or that memory is short.
pub fn fault_before_bounds(
    alloc: Global,
    raw: &RawImage,
) -> Result<Option<ValidityFault>, OutOfMemory>
    requires { HasRanges raw.now }
    ensures { IfOk result (λ found. shown_by found ≡ first_before_bounds (image_of raw.now)) }
{
    match operand_fault(alloc, raw)? {
        Some(shown) => Ok(Some(of_part(part::OPERANDS, shown))),
        None => later_fault(alloc, raw),
    }
}

/// The first fault, or None exactly where the image is valid; or that memory is short.
pub fn first_fault(alloc: Global, raw: &RawImage) -> Result<Option<ValidityFault>, OutOfMemory>
    requires { HasRanges raw.now }
    ensures { IfOk result (λ found. shown_by found ≡ fault_of (image_of raw.now)) }
{
    match fault_before_bounds(alloc, raw)? {
        Some(found) => Ok(Some(found)),
        None => bounds_fault(alloc, raw),
    }
}

/// The first fault of declared costs and sizes.
fn declared_fault(raw: &RawImage, parts: &CodeCosts) -> Option<ValidityFault>
    requires ranges { HasRanges raw.now }
    requires parts { AreParts raw.now parts.now }
    ensures { shown_by result ≡ declared_fault_of (image_of raw.now) }
{
    match cost_fault(raw, parts) {
        Some(shown) => Some(of_part(part::COSTS, shown)),
        None => match size_fault(raw, parts) {
            Some(shown) => Some(of_part(part::SIZES, shown)),
            None => None,
        },
    }
}

/// The first fault of an image whose code is of its trees.
fn after_trees(
    alloc: Global,
    raw: &RawImage,
    parts: &CodeCosts,
) -> Result<Option<ValidityFault>, OutOfMemory>
    requires ranges { HasRanges raw.now }
    requires parts { AreParts raw.now parts.now }
    requires shape { shape_fault (image_of raw.now) ≡ None }
    ensures { IfOk result (λ found. shown_by found ≡ code_fault_of (image_of raw.now)) }
{
    let waits = waits_table(alloc, raw)?;
    match handler_fault(raw, waits.as_slice()) {
        Some(shown) => Ok(Some(of_part(part::HANDLERS, shown))),
        None => Ok(declared_fault(raw, parts)),
    }
}

/// The first fault of trees, handlers, declared costs and sizes.
fn code_fault(alloc: Global, raw: &RawImage) -> Result<Option<ValidityFault>, OutOfMemory>
    requires { HasRanges raw.now }
    ensures { IfOk result (λ found. shown_by found ≡ code_fault_of (image_of raw.now)) }
{
    let mut parts = CodeCosts::new(alloc);
    match shape_fault(raw, &mut parts)? {
        Some(shown) => Ok(Some(of_part(part::SHAPE, shown))),
        None => after_trees(alloc, raw, &parts),
    }
}
