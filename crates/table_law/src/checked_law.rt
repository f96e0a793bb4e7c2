//! Laws: each event of a table's program activates just one process, and the program keeps to all
//! rules.
//!
//! `specs/Checked.antt` says so. Nothing is to run.
//!
//! The laws.

ghost use Rattle.table_law.specs.Checked.{KeepsEvents, KeepsRules};

use crate::{table_limits, table_names, table_reach, table_statements};
use wellformed_law::{declarations_are_listed, names_are_found, names_stand_apart};

/// The rule for events (37) fails of no tree that is read, and is that of a table's program apart
/// from places.
pub fn table_events()
    ensures { KeepsEvents }
{
    names_stand_apart();
    names_are_found();
    declarations_are_listed();
    table_names();
}

/// A tree that is read, and is that of the program of a table with a process apart from places,
/// keeps to the rules for names and to all static rules.
pub fn table_is_checked()
    ensures { KeepsRules }
{
    table_names();
    table_statements();
    table_reach();
    table_limits();
    table_events();
}
