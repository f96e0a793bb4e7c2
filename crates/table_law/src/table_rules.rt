//! Laws: which rules the program of a table keeps to.
//!
//! `specs/Rules.antt` says so. Nothing is to run.
//!
//! The laws.

ghost use Rattle.table_law.specs.Rules.{KeepsLimits, KeepsReach, KeepsStatements};

/// No rule for statements fails of a tree that is that of a table's program, apart from places.
pub fn table_statements()
    ensures { KeepsStatements }
{}

/// No rule for what is reached by calls fails of a tree that is that of a table's program, apart
/// from places.
pub fn table_reach()
    ensures { KeepsReach }
{}

/// Of the rules for declarations none but that for events (37) may fail of a tree that is that of
/// a table's program, apart from places.
pub fn table_limits()
    ensures { KeepsLimits }
{}
