//! Laws: what is due of calls on the text that `print` has put.
//!
//! `specs/Printed.antt` says so of a canonical text that is no longer than a text may be, for each
//! text that is that of a program. No rule is taken for granted of the canonical text: that they
//! all hold of it is `printed_law`.
//! Nothing here can run.
//!
//! The laws.

ghost use Rattle.calls_law.specs.Printed.{PrintThenCompileIsTheSame, PrintThenGoIsTheSame, PrintThenPrintKeeps, PrintThenReportIsTheSame, PrintedTextsHaveTheProgram};

use command_due_law::one_answer::{print_is_one, written_once, written_or_faulty};
use printed_law::printed_programs::printed_trees_are_written;

/// The text that `print` puts is that of the same program: its tree is the first, apart from
/// places, it keeps to all rules, and it is not too large.
pub fn printed_texts_have_the_program()
    ensures { PrintedTextsHaveTheProgram }
{
    printed_trees_are_written();
}

/// Just what is due of `check` and of `json` of the first is due of it, with any overhead: the same
/// report, with the same status.
pub fn print_then_report_is_the_same()
    ensures { PrintThenReportIsTheSame }
{
    printed_texts_have_the_program();
    written_once();
    written_or_faulty();
}

/// So is what is due of `compile`: the same report, and the same image.
pub fn print_then_compile_is_the_same()
    ensures { PrintThenCompileIsTheSame }
{
    printed_texts_have_the_program();
    written_once();
    written_or_faulty();
}

/// So is what is due of `go`, over any script: the same report, the same log and the same image.
pub fn print_then_go_is_the_same()
    ensures { PrintThenGoIsTheSame }
{
    printed_texts_have_the_program();
    written_once();
    written_or_faulty();
}

/// Of `print` the same bytes are due again, and nothing else.
pub fn print_then_print_keeps()
    ensures { PrintThenPrintKeeps }
{
    printed_texts_have_the_program();
    written_once();
    written_or_faulty();
    print_is_one();
}
