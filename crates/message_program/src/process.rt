//! The first process without a bound.

ghost use Rattle.std.specs.Prelude.{◌≡◌, IfSome, Some, option_map, slice_get};
ghost use Rattle.message_program.specs.Late.{late_row};
ghost use Rattle.sched_table.specs.Late.{late};

use sched_table::Row;
use syntax_tree::Name;

/// A process that has no bound.
#[derive(Clone, Copy)]
pub(crate) struct LateProcess<'a> {
    pub name: &'a Name,
    pub row: &'a Row,
}

/// The process of a row, if it has a name.
fn process_at<'a>(names: &'a [Name], row: &'a Row, index: usize) -> Option<LateProcess<'a>>
    ensures name { option_map (λ process. process.name.now) result ≡ slice_get names.now index }
    ensures row { IfSome result (λ process. process.row.now ≡ row.entry.now) }
{
    match names.get(index) {
        None => None,
        Some(name) => Some(LateProcess { name, row }),
    }
}

/// The first process whose row has no bound.
pub(crate) fn late_process<'a>(names: &'a [Name], rows: &'a [Row]) -> Option<LateProcess<'a>>
    ensures name { option_map (λ process. process.name.now) result ≡ late names.now rows.now }
    ensures row { IfSome result (λ process. late_row rows.now ≡ Some process.row.now) }
{
    for (index, row) in rows.iter().enumerate() {
        if row.bound.is_none() {
            return process_at(names, row, index);
        }
    }
    None
}
