//! The laws. These functions do nothing; their contracts are the laws.

ghost use Rattle.table_law.specs.Agree.{BlocksAreOfTheTable, BoundsAreOfTheTable, CeilingsAreOfTheTable, RanksAreOfTheTable, TablesAreInTime, TasksAreOfTheTable};

use crate::{table_costs, table_frames};

/// The process of a line has the rank of the line.
pub fn table_ranks()
    ensures { RanksAreOfTheTable }
{
    table_costs();
    table_frames();
}

/// A monitor has the ceiling that the table gives it.
pub fn table_ceilings()
    ensures { CeilingsAreOfTheTable }
{
    table_ranks();
}

/// A rank has the block that the table gives it.
pub fn table_blocks()
    ensures { BlocksAreOfTheTable }
{
    table_ranks();
}

/// The tasks of a table are those of its program.
pub fn table_tasks()
    ensures { TasksAreOfTheTable }
{
    table_costs();
    table_frames();
    table_ranks();
    table_blocks();
}

/// A table is in time where its program is.
pub fn table_in_time()
    ensures { TablesAreInTime }
{
    table_tasks();
}

/// A line has the bound of its process.
pub fn table_bounds()
    ensures { BoundsAreOfTheTable }
{
    table_ranks();
    table_tasks();
}
