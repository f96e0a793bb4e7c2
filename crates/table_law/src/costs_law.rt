//! Law: the costs and the stays of a table's program are those of the table.
//!
//! `specs/Costs.antt` says so. Nothing is to run.
//!
//! The law.

ghost use Rattle.table_law.specs.Costs.{HasCosts, HasProcesses, HasStays};

/// The processes of a table's program are those of its lines, in order; each takes the ticks of its
/// cost, waits for nothing and is not suspended; an entry stays in its monitor for the ticks that it
/// is made for.
pub fn table_costs()
    ensures processes { HasProcesses }
    ensures costs { HasCosts }
    ensures stays { HasStays }
{}
