//! The first process that has no bound.

ghost use Rattle.std.specs.Prelude.{◌≡◌, ◌≤◌, length};
ghost use Rattle.std.specs.Option.{option_copied};
ghost use Rattle.sched_table.specs.Late.{late};

use crate::Row;
use syntax_tree::Name;

/// The name of the first process whose row has no bound.
pub(crate) fn late<'a>(names: &'a [Name], rows: &[Row]) -> Option<&'a Name>
    requires { length names.now ≡ length rows.now }
    ensures { option_copied result ≡ late names.now rows.now }
{
    for (at, row) in rows.iter().enumerate() {
        if row.bound.is_none() {
            return Some(&names[at]);
        }
    }
    None
}
