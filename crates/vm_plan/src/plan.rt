//! The whole plan.

ghost use Rattle.std.specs.Prelude.{IfOk};
ghost use Rattle.vm_plan.specs.HasPlan.{HasPlan};
ghost use Rattle.vm_state.specs.Plan.{IsOf};

use crate::parts::{ceilings, conditions, devices, instructions, routines, words};
use crate::process::processes;
use image_bytes::ImageBytes;
use out_of_memory::OutOfMemory;
use std::alloc::Global;
use vm_state::DecodedImage;

/// The plan of the image; an error says that memory is short.
pub fn plan_of(alloc: Global, image: &ImageBytes) -> Result<DecodedImage, OutOfMemory>
    requires { HasPlan image.now.image }
    ensures { IfOk result (λ plan. IsOf image.now.image plan) }
{
    Ok(DecodedImage {
        code: instructions(alloc, image)?,
        routines: routines(alloc, image)?,
        processes: processes(alloc, image)?,
        conditions: conditions(alloc, image)?,
        ceilings: ceilings(alloc, image)?,
        shared: words(image),
        devices: devices(image),
        dispatch_ticks: 2 * u32::from(image.overhead()),
    })
}
