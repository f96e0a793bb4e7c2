//! The first instruction that breaks a rule.

ghost use Rattle.std.specs.Prelude.{◌≡◌, ◌<◌, ℕ, Some, None, length, slice_get, ◌≤◌, IfOk};
ghost use Rattle.image.specs.Raw.{image_of};
ghost use Rattle.valid_image.specs.Operands.{operand_fault as defined_fault, operand_fault_in, routines_operand_fault, processes_operand_fault};
ghost use Rattle.valid_image.specs.Pieces.{piece_number};
ghost use Rattle.loader_code.specs.Told.{told};
ghost use Rattle.loader_code.specs.Seen.{whose_of, fault_at, first_at, AreBounds};
ghost use Rattle.loader_code.specs.Owned.{owned, AreOwned};

use crate::bound::bounds;
use crate::operand::bad_operand;
use crate::words::Whose;
use crate::{FaultNumbers, addresses_by_piece, calls_by_piece, of_piece};
use image::{RawImage, RawProcess, RawRoutine};
use out_of_memory::OutOfMemory;
use std::alloc::Global;
use syntax_tree::List;

/// The fault of the instruction at the address, if there is one: the address and the operand, a
/// negative one as its value plus 2^32.
fn fault_here(
    image: &RawImage,
    bounds: &[bool],
    whose: Whose,
    address: usize,
) -> Option<FaultNumbers>
    requires { AreBounds (image_of image.now) bounds.now }
    ensures { told result ≡ fault_at (image_of image.now) (whose_of whose) address }
{
    let instr = *image.code.get(address)?;
    let operand = bad_operand(image, bounds, whose, instr)?;
    Some(FaultNumbers {
        a: address as u64,
        b: operand.cast_unsigned() as u64,
    })
}

/// The first fault at these addresses.
fn fault_among(
    image: &RawImage,
    bounds: &[bool],
    whose: Whose,
    addresses: &[usize],
) -> Option<FaultNumbers>
    requires { AreBounds (image_of image.now) bounds.now }
    ensures { told result ≡ first_at (fault_at (image_of image.now) (whose_of whose))
        addresses.now }
{
    for address in addresses {
        let found = fault_here(image, bounds, whose, *address);
        if found.is_some() {
            return found;
        }
    }
    None
}

/// The first fault in the code of a piece.
fn fault_in_piece(
    image: &RawImage,
    bounds: &[bool],
    whose: Whose,
    addresses: &[List<usize>],
    piece: usize,
) -> Option<FaultNumbers>
    requires bounds { AreBounds (image_of image.now) bounds.now }
    requires addresses { AreOwned (image_of image.now) addresses.now }
    requires piece { piece < length addresses.now }
    ensures { told result ≡ operand_fault_in (image_of image.now) piece (whose_of whose) }
{
    fault_among(image, bounds, whose, of_piece(addresses, piece))
}

/// The first fault in the code of routines.
fn routines_fault(
    image: &RawImage,
    bounds: &[bool],
    addresses: &[List<usize>],
) -> Option<FaultNumbers>
    requires bounds { AreBounds (image_of image.now) bounds.now }
    requires addresses { AreOwned (image_of image.now) addresses.now }
    ensures { told result ≡ routines_operand_fault (image_of image.now) }
{
    let routines = image.routines.as_slice();
    for number in 0..routines.len() {
        let routine = &routines[number];
        let whose = Whose {
            number,
            kind: routine.kind,
            owner: routine.owner,
            locals: routine.locals,
        };
        match fault_in_piece(image, bounds, whose, addresses, number) {
            Some(shown) => return Some(shown),
            None => {}
        }
    }
    None
}

/// The first fault in the code of processes.
fn processes_fault(
    image: &RawImage,
    bounds: &[bool],
    addresses: &[List<usize>],
) -> Option<FaultNumbers>
    requires bounds { AreBounds (image_of image.now) bounds.now }
    requires addresses { AreOwned (image_of image.now) addresses.now }
    requires few { length image.now.processes ≤ 64 }
    ensures { told result ≡ processes_operand_fault (image_of image.now) }
{
    let routines = image.routines.len();
    let processes = image.processes.as_slice();
    for number in 0..processes.len() {
        let process = &processes[number];
        let whose = Whose {
            number: routines,
            kind: 1,
            owner: number as u16,
            locals: process.locals,
        };
        match fault_in_piece(image, bounds, whose, addresses, routines + number) {
            Some(shown) => return Some(shown),
            None => {}
        }
    }
    None
}

/// The first instruction that breaks a rule of operands, with its address and the operand, and None
/// exactly where no instruction breaks one; or that memory is short.
pub fn operand_fault(alloc: Global, image: &RawImage) -> Result<Option<FaultNumbers>, OutOfMemory>
    requires { length image.now.processes ≤ 64 }
    ensures { IfOk result (λ found. told found ≡ defined_fault (image_of image.now)) }
{
    let addresses = addresses_by_piece(alloc, image)?;
    let calls = calls_by_piece(alloc, image, addresses.as_slice())?;
    let bounds = bounds(alloc, image, calls.as_slice())?;
    if let Some(shown) = routines_fault(image, bounds.as_slice(), addresses.as_slice()) {
        return Ok(Some(shown));
    }
    Ok(processes_fault(image, bounds.as_slice(), addresses.as_slice()))
}
