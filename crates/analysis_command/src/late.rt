//! What is shown of a program that is late.

ghost use Rattle.std.specs.Prelude.{◌≤◌, ℕ, List, IfOk};
ghost use Rattle.syntax_tree.specs.Placed.{placed, plain};
ghost use Rattle.sched_program.specs.Tasks.{IsNotInTime};
ghost use Rattle.command_due.specs.Source.{IsWritten};
ghost use Rattle.compile.specs.Build.{IsLateOf};

use built_tasks_law::judged_by_text::built_is_in_time;
use compile::{BuildFault, LateProgram, build};
use out_of_memory::OutOfMemory;
use static_semantics::Checked;
use std::alloc::Global;

/// What the report shows of a program that is not in time. Only want of memory is an error.
pub fn late_program(alloc: Global, program: &Checked, over: u16) -> Result<LateProgram, OutOfMemory>
    ghost text: { List ℕ }
    requires over { over ≤ 1000 }
    requires written { IsWritten text (placed program.now) }
    requires late { IsNotInTime (plain (placed program.now)) over }
    ensures { IfOk result (IsLateOf (placed program.now) over) }
{
    built_is_in_time();
    match build(alloc, program, over) {
        Err(BuildFault::Untimely(late)) => Ok(late),
        Err(BuildFault::Memory(error)) => Err(error),
        Err(BuildFault::TooLarge { .. }) => unreachable!(),
        Ok(_) => unreachable!(),
    }
}
