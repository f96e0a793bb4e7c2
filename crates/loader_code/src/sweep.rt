//! The addresses of each piece.

ghost use Rattle.std.specs.Prelude.{◌≡◌, ◌+◌, ◌<◌, ◌++◌, ℕ, length, map, [], IfOk, OnOk, slice_index_or};
ghost use Rattle.std.specs.Option.{option_or};
ghost use Rattle.image.specs.Raw.{image_of};
ghost use Rattle.valid_image.specs.Pieces.{pieces};
ghost use Rattle.loader_code.specs.Owned.{start_of, AreMarks, AreOwned, IsBelow, IsGiven};

use image::{RawImage, RawProcess, RawRoutine};
use out_of_memory::OutOfMemory;
use std::alloc::Global;
use syntax_tree::List;

/// Where each piece is declared to start.
fn starts(alloc: Global, image: &RawImage) -> Result<Vec<usize>, OutOfMemory>
    ensures { IfOk result (λ v. v.items ≡ map start_of (pieces (image_of image.now))) }
{
    let mut all = Vec::new(alloc);
    for routine in image.routines.as_slice() {
        all.push(routine.start as usize)?;
    }
    for process in image.processes.as_slice() {
        all.push(process.start as usize)?;
    }
    Ok(all)
}

/// By address, the number of the last piece that starts there, if there is one.
fn marks(alloc: Global, starts: &[usize], length: usize) -> Result<Vec<Option<usize>>, OutOfMemory>
    ensures { IfOk result (λ v. AreMarks starts.now length v.items) }
{
    let mut all = vec![in alloc; None; length]?;
    for number in (0..starts.len()).rev() {
        let start = starts[number];
        if start < length && all[start].is_none() {
            all[start] = Some(number);
        }
    }
    Ok(all)
}

/// So many empty lists.
fn no_addresses(alloc: Global, count: usize) -> Result<Vec<List<usize>>, OutOfMemory>
    ensures one_each { IfOk result (λ v. length v.items ≡ count) }
    ensures each { IfOk result (λ v. (k : ℕ) → k < count → slice_index_or v.items k [] ≡ []) }
{
    let mut all = Vec::new(alloc);
    for _piece in 0..count {
        all.push(List::new(alloc))?;
    }
    Ok(all)
}

/// Gives the address to the piece that it belongs to, if it belongs to one.
fn give(all: &mut Vec<List<usize>>, owner: Option<usize>, address: usize) -> Result<(), OutOfMemory>
    requires { IsBelow (length all.old.items) owner }
    ensures { OnOk result (IsGiven owner address all.old.items all.new.items) }
{
    if let Some(number) = owner {
        all[number].push(address)?;
    }
    Ok(())
}

/// The piece that an address belongs to: the last one that starts there, or else that of the
/// address before.
fn next_owner(marks: &[Option<usize>], owner: Option<usize>, address: usize) -> Option<usize>
    requires { address < length marks.now }
    ensures { result ≡ option_or (slice_index_or marks.now address None) owner }
{
    marks[address].or(owner)
}

/// The addresses of each piece in ascending order, by the number of the piece; routines come before
/// processes.
pub fn addresses_by_piece(alloc: Global, image: &RawImage) -> Result<Vec<List<usize>>, OutOfMemory>
    ensures { IfOk result (λ v. AreOwned (image_of image.now) v.items) }
{
    let starts = starts(alloc, image)?;
    let length = image.code.len();
    let marks = marks(alloc, starts.as_slice(), length)?;
    let mut all = no_addresses(alloc, starts.len())?;
    let mut owner = None;
    for address in 0..length {
        owner = next_owner(marks.as_slice(), owner, address);
        give(&mut all, owner, address)?;
    }
    Ok(all)
}

/// The numbers of a piece, by its number.
pub fn of_piece(all: &[List<usize>], piece: usize) -> &[usize]
    requires { piece < length all.now }
    ensures { result.now ≡ slice_index_or all.now piece [] }
{
    all[piece].as_slice()
}
