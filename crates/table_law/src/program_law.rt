//! Law: no fault comes of the text of a table's program.
//!
//! `specs/Faultless.antt` says so. Nothing is to run.
//!
//! The law.

ghost use Rattle.table_law.specs.Faultless.{IsFaultless, IsProgramText};

use crate::{table_is_checked, table_tree};
use front_end::program_or_fault;

/// Each tree of the text of a table's program is that of a program, and the text has no fault of
/// its length, its tokens, its grammar, its names and the static rules.
pub fn table_text_is_program()
    ensures program { IsProgramText }
    ensures faultless { IsFaultless }
{
    table_tree();
    table_is_checked();
    program_or_fault();
}
