//! Law: what is shown of a program has a name for each row.
//!
//! The report puts a table beside the names of a program, and asks that there be one row for each
//! process, and one ceiling and one number of words for each monitor. `specs/Tables.antt` has the
//! law: the table of a shaped image has them. Nothing here can run.
//!
//! The law.

ghost use Rattle.built_image_law.specs.Tables.{TablesAreNamed};

/// The table of a shaped image has a row for each process and a ceiling for each monitor that is
/// named.
pub fn tables_are_named()
    ensures { TablesAreNamed }
{}
