//! What is answered once the least bounds are known.

ghost use Rattle.std.specs.Prelude.{◌≡◌, ◌≤◌, ◌↔◌, All, IfOk, IsSome, IsTrue, length};
ghost use Rattle.compile.specs.Steps.{IsFilled, IsReport};

use crate::built::{Built, LateProgram};
use compile_schedule::{table, with_bounds};
use image::RawImage;
use out_of_memory::OutOfMemory;
use std::alloc::Global;
use syntax_tree::List;

/// Whether each bound is there.
pub fn all_there(bounds: &List<Option<u32>>) -> bool
    ensures { IsTrue result ↔ All IsSome bounds.now }
{
    bounds.as_slice().iter().all(|bound| bound.is_some())
}

/// The image with its bounds, which are all there, and its table.
pub fn filled(
    alloc: Global,
    image: RawImage,
    bounds: &List<Option<u32>>,
) -> Result<Built, OutOfMemory>
    requires one_each { length bounds.now ≡ length image.processes }
    requires there { All IsSome bounds.now }
    requires code { length image.code ≤ 65535 }
    ensures { IfOk result (IsFilled image bounds.now) }
{
    let image = with_bounds(image, bounds);
    let table = table(alloc, &image, bounds)?;
    Ok(Built { image, table })
}

/// The names of an image, and its table with the bounds that there are.
pub fn reported(
    alloc: Global,
    image: RawImage,
    bounds: &List<Option<u32>>,
) -> Result<LateProgram, OutOfMemory>
    requires one_each { length bounds.now ≡ length image.processes }
    requires code { length image.code ≤ 65535 }
    ensures { IfOk result (IsReport image bounds.now) }
{
    let table = table(alloc, &image, bounds)?;
    Ok(LateProgram {
        names: image.names,
        program: image.program,
        table,
    })
}
