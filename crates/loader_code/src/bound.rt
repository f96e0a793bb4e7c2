//! Which routines reach code that is bound to a process or a monitor.

ghost use Rattle.std.specs.Prelude.{◌≡◌, ◌<◌, ℕ, false, length, slice_index_or, IfOk};
ghost use Rattle.image.specs.Raw.{image_of};
ghost use Rattle.valid_image.specs.Tables.{some_of, reach, bound_at};
ghost use Rattle.loader_code.specs.Seen.{AreBounds, AreFirstBounds};
ghost use Rattle.loader_code.specs.Owned.{AreCalls};

use crate::of_piece;
use image::{RawImage, RawRoutine};
use out_of_memory::OutOfMemory;
use std::alloc::Global;
use syntax_tree::List;

/// Whether the routine reaches such code; one that has no row does not.
pub(crate) fn is_bound(bounds: &[bool], routine: usize) -> bool
    ensures { result ≡ slice_index_or bounds.now routine false }
{
    routine < bounds.len() && bounds[routine]
}

/// Whether one of the routines reaches such code.
fn some_is_bound(bounds: &[bool], called: &[usize]) -> bool
    ensures { result ≡ some_of (λ r. slice_index_or bounds.now r false) called.now }
{
    for routine in called {
        if is_bound(bounds, *routine) {
            return true;
        }
    }
    false
}

/// Whether the next routine reaches such code, by the rows of those before it: where it is one of a
/// process or an entry, or calls one that does.
fn next_is_bound(image: &RawImage, bounds: &[bool], calls: &[List<usize>], number: usize) -> bool
    requires calls { AreCalls (image_of image.now) calls.now }
    requires rows { AreFirstBounds (image_of image.now) number bounds.now }
    requires there { number < length image.now.routines }
    ensures { result ≡ bound_at (reach (image_of image.now)) number }
{
    if image.routines.as_slice()[number].kind != 0 {
        return true;
    }
    some_is_bound(bounds, of_piece(calls, number))
}

/// By routine, whether it reaches a routine of a process or an entry, itself counted in.
pub(crate) fn bounds(
    alloc: Global,
    image: &RawImage,
    calls: &[List<usize>],
) -> Result<Vec<bool>, OutOfMemory>
    requires { AreCalls (image_of image.now) calls.now }
    ensures { IfOk result (λ v. AreBounds (image_of image.now) v.items) }
{
    let mut all = Vec::new(alloc);
    for number in 0..image.routines.len() {
        let reaches = next_is_bound(image, all.as_slice(), calls, number);
        all.push(reaches)?;
    }
    Ok(all)
}
