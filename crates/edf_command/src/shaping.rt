//! The image of a program.

ghost use Rattle.std.specs.Prelude.{◌≡◌, ℕ, List, map, IfOk, IfErr};
ghost use Rattle.syntax_tree.specs.Placed.{placed};
ghost use Rattle.image.specs.Raw.{named_of, process_of};
ghost use Rattle.front_end.specs.Program.{IsProgramOf};
ghost use Rattle.compile.specs.Steps.{IsRanked};
ghost use Rattle.edf_command.specs.Steps.{due_of, IsEdfShape, IsSizeFault};

use built_image_law::shape_before_times::shapes_leave_bounds_aside;
use compile::{BuildFault, ranked};
use compile_schedule::with_bounds;
use image::{RawImage, RawProcess};
use out_of_memory::OutOfMemory;
use static_semantics::Checked;
use std::alloc::Global;
use syntax_tree::{List, Place, Program};

/// Why a program has no image.
#[derive(Drop)]
pub enum ShapeFault {
    /// A rule of size fails: 46 for the number of instructions, 47 for a stack, at its place.
    TooLarge { number: u8, place: Place },
    /// There was not enough memory.
    Memory(OutOfMemory),
}

impl From<OutOfMemory> for ShapeFault {
    ghost use Rattle.std.specs.Prelude.{◌≡◌};
    ghost use Rattle.out_of_memory.specs.Refused.{refused};
    ghost use Rattle.edf_command.specs.declared.shaping.ShapeFault.TheVariants.{Memory};

    ghost from_gives = { λ _ fault. fault ≡ Memory refused };

    fn from(error: OutOfMemory) -> ShapeFault {
        ShapeFault::Memory(error)
    }
}

/// The image of the program of a text without overhead, with its ranks, ceilings and blocks,
/// whatever its bounds.
fn with_ranks(alloc: Global, program: &Program) -> Result<RawImage, ShapeFault>
    ghost text: { List ℕ }
    requires written { IsProgramOf text (placed program.now) }
    ensures image { IfOk result (IsRanked (placed program.now) 0) }
    ensures fault { IfErr result (IsSizeFault (placed program.now)) }
{
    match ranked(alloc, program, 0) {
        Ok(image) => Ok(image),
        Err(BuildFault::TooLarge { number, place }) => Err(ShapeFault::TooLarge { number, place }),
        Err(BuildFault::Untimely(_)) => unreachable!(),
        Err(BuildFault::Memory(error)) => Err(ShapeFault::Memory(error)),
    }
}

/// The deadlines of processes, as bounds.
fn deadlines(alloc: Global, processes: &[RawProcess]) -> Result<List<Option<u32>>, OutOfMemory>
    ensures { IfOk result (λ all. all ≡ map due_of (map process_of processes.now)) }
{
    let mut all = List::new(alloc);
    for process in processes {
        all.push(Some(process.deadline))?;
    }
    Ok(all)
}

/// The image of the program of a text, each bound being the deadline.
fn with_deadlines(alloc: Global, program: &Program) -> Result<RawImage, ShapeFault>
    ghost text: { List ℕ }
    requires written { IsProgramOf text (placed program.now) }
    ensures image { IfOk result (λ image. IsEdfShape (placed program.now) (named_of image)) }
    ensures fault { IfErr result (IsSizeFault (placed program.now)) }
{
    shapes_leave_bounds_aside();
    let image = with_ranks(alloc, program)?;
    let bounds = deadlines(alloc, image.processes.as_slice())?;
    Ok(with_bounds(image, &bounds))
}

/// The image of the program of a text under earliest deadline first: without overhead, each bound
/// being the deadline. Time is not asked.
///
/// # Errors
///
/// `TooLarge` exactly where a rule of size fails, with the first that does. `Memory` where there is
/// not enough memory.
pub fn shape(alloc: Global, program: &Checked) -> Result<RawImage, ShapeFault>
    ghost text: { List ℕ }
    requires written { IsProgramOf text (placed program.now) }
    ensures image { IfOk result (λ image. IsEdfShape (placed program.now) (named_of image)) }
    ensures fault { IfErr result (IsSizeFault (placed program.now)) }
{
    with_deadlines(alloc, program.prog())
}
