//! Law: a table's program is not too large.
//!
//! `specs/WrittenSizes.antt` says so. Nothing is to run.
//!
//! The law.

ghost use Rattle.table_law.specs.WrittenSizes.{KeepsSizes};

use crate::{table_costs, table_sizes};

/// No rule of size (46 and 47) fails of a tree that is that of a table's program, apart from places.
pub fn table_keeps_sizes()
    ensures { KeepsSizes }
{
    table_costs();
    table_sizes();
}
