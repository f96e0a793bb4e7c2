//! Building.

ghost use Rattle.std.specs.Prelude.{◌≤◌, ℕ, List};
ghost use Rattle.syntax_tree.specs.Placed.{placed};
ghost use Rattle.front_end.specs.Program.{IsProgramOf};
ghost use Rattle.compile.specs.Build.{Builds};

use crate::built::{BuildFault, Built};
use crate::finish::{all_there, filled, reported};
use crate::shape::ranked;
use built_image_law::named_rows::tables_are_named;
use built_image_law::shape_before_times::{bounded_images_are_built, late_where_one_is_none};
use compile_schedule::bounds;
use static_semantics::Checked;
use std::alloc::Global;

/// The image of the program of a text with an overhead of at most 1,000 ticks: the ticks of one
/// dispatch.
///
/// # Errors
///
/// `TooLarge` exactly where a rule of size fails, with the first that does. `Untimely` exactly
/// where none fails, and the recurrence (Burns and Wellings) of some process has no solution within
/// its deadline; ranks are by deadlines (Leung and Whitehead), blocks by immediate ceilings.
/// `Memory` where there is not enough memory.
pub fn build(alloc: Global, program: &Checked, over: u16) -> Result<Built, BuildFault>
    ghost text: { List ℕ }
    requires written { IsProgramOf text (placed program.now) }
    requires over { over ≤ 1000 }
    ensures { Builds (placed program.now) over result }
{
    bounded_images_are_built();
    late_where_one_is_none();
    tables_are_named();
    let image = ranked(alloc, program.prog(), over)?;
    let least = bounds(alloc, &image)?;
    if all_there(&least) {
        let built = filled(alloc, image, &least)?;
        Ok(built)
    } else {
        let late = reported(alloc, image, &least)?;
        Err(BuildFault::Untimely(late))
    }
}
