//! Law: the text of a table's program is a program text in full.
//!
//! `specs/Written.antt` says so. Nothing is to run.
//!
//! The law.

ghost use Rattle.table_law.specs.Written.{IsWrittenTable};

use crate::{table_keeps_sizes, table_text_is_program, table_tree};

/// The text of the program of each table with a process is that of a tree that is the table's
/// program, apart from places, keeps to all rules and is not too large; what is printed of that
/// tree is the text again.
pub fn table_text_is_written()
    ensures { IsWrittenTable }
{
    table_tree();
    table_text_is_program();
    table_keeps_sizes();
}
