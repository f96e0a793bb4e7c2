//! Law: no name of a table's program is refused.
//!
//! `specs/Names.antt` says so. Nothing is to run.
//!
//! The law.

ghost use Rattle.table_law.specs.Names.{KeepsNames};

/// No rule for names (20 to 23) fails of a tree that is that of a table's program, apart from
/// places.
pub fn table_names()
    ensures { KeepsNames }
{}
