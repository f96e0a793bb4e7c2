//! What timely tables promise.

ghost use Rattle.sched_table.specs.Table.{TimelyTablesRespond};

/// A table has a bound in each row exactly where each process has a response within its deadline
/// that meets the recurrence of its rank.
pub fn timely_tables_respond()
    ensures { TimelyTablesRespond }
{}
