//! The laws. These functions do nothing; their contracts are the laws.

ghost use Rattle.table_law.specs.Once.{FaultsAreOne, TablesAreOne, TablesHaveNoFault};

/// A text is that of one table.
pub fn texts_are_one_table()
    ensures { TablesAreOne }
{}

/// A text that is that of a table has no fault.
pub fn tables_have_no_fault()
    ensures { TablesHaveNoFault }
{}

/// A text has one fault at most.
pub fn faults_are_one()
    ensures { FaultsAreOne }
{}
