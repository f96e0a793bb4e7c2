//! What each piece calls.

ghost use Rattle.std.specs.Prelude.{◌≡◌, ◌++◌, ℕ, length, slice_get, IfOk};
ghost use Rattle.image.specs.Raw.{image_of};
ghost use Rattle.valid_image.specs.Pieces.{called_by};
ghost use Rattle.loader_code.specs.Owned.{calls_of, number_of, AreOwned, AreCalls};

use image::RawImage;
use machine_isa::Instr;
use out_of_memory::OutOfMemory;
use std::alloc::Global;
use syntax_tree::List;

/// The routine that an instruction calls.
fn callee(instr: Instr) -> Option<usize>
    ensures { number_of result ≡ called_by (Some instr) }
{
    match instr {
        Instr::Call { routine } if 0 <= routine => Some(routine as usize),
        _ => None,
    }
}

/// The routine that the code calls at the address.
fn call_at(code: &[Instr], address: usize) -> Option<usize>
    ensures { number_of result ≡ called_by (slice_get code.now address) }
{
    match code.get(address) {
        Some(instr) => callee(*instr),
        None => None,
    }
}

/// The routines that the code at these addresses calls.
#[tactic(auto, using(crate::proofs::Sweeping::calls_more))]
fn calls_at(alloc: Global, code: &[Instr], addresses: &[usize]) -> Result<List<usize>, OutOfMemory>
    ensures { IfOk result (λ v. v ≡ calls_of code.now addresses.now) }
{
    let mut called = List::new(alloc);
    for address in addresses {
        if let Some(routine) = call_at(code, *address) {
            called.push(routine)?;
        }
    }
    Ok(called)
}

/// The routines that each piece calls, by the number of the piece, in the order of the calls.
pub fn calls_by_piece(
    alloc: Global,
    image: &RawImage,
    addresses: &[List<usize>],
) -> Result<Vec<List<usize>>, OutOfMemory>
    requires { AreOwned (image_of image.now) addresses.now }
    ensures { IfOk result (λ v. AreCalls (image_of image.now) v.items) }
{
    let mut all = Vec::new(alloc);
    for piece in 0..addresses.len() {
        all.push(calls_at(alloc, image.code.as_slice(), addresses[piece].as_slice())?)?;
    }
    Ok(all)
}
