//! Laws: what is due of a text, of an image's bytes or of a script is one.
//!
//! A text is that of one program or has one fault; a program with an overhead is late, with one
//! report, or timely, with one image; bytes hold one valid image or have one fault; a text is one
//! script or has one fault. `specs/DueOnce.antt` says so, over the definitions of `command_due`, and
//! what follows: of what the files of a command hold one outcome is due. Nothing here can run.
//!
//! The laws.

ghost use Rattle.command_due_law.specs.DueOnce.{AsmIsOne, ChartIsOne, CompileIsOne, DisIsOne, GoIsOne, ImageFilesAreNotRefused, ImageRefusalsAreOne, ImagesHeldAreOne, LateReportsAreOne, MigrateIsOne, PrintIsOne, RefusalsAreOne, ReportsAreOne, RunIsOne, SlackIsOne, SlackTextsAreOne, StopsAreOne, TableIsOne, TextsHaveOneFault, TimelyTextsAreNotLate, TimelyTextsAreNotRefused, TimelyTextsHaveOneImage, WatchIsOne, WrittenOnce, WrittenOrFaulty};

use asm_law::text_and_image::{
    texts_are_of_one_image, texts_have_one_fault as image_texts_have_one_fault,
    texts_of_images_have_no_fault,
};
use built_image_law::one_image::{built_images_are_one, tables_are_one, timely_or_late};
use front_end::{one_fault, one_program, program_or_fault};
use script::{one_answer, one_script};
use table_law::once_law::{faults_are_one, tables_have_no_fault, texts_are_one_table};
use valid_image_law::validity_law::valid_is_without_fault;

/// A text is that of one program that keeps to all rules and is not too large.
pub fn written_once()
    ensures { WrittenOnce }
{
    one_program();
}

/// A text that is that of such a program has no fault.
pub fn written_or_faulty()
    ensures { WrittenOrFaulty }
{
    one_program();
    program_or_fault();
}

/// A text has one fault.
pub fn texts_have_one_fault()
    ensures { TextsHaveOneFault }
{
    one_program();
    program_or_fault();
    one_fault();
}

/// A text whose program is timely has one image.
pub fn timely_texts_have_one_image()
    ensures { TimelyTextsHaveOneImage }
{
    written_once();
    built_images_are_one();
}

/// A text whose program is timely is not late.
pub fn timely_texts_are_not_late()
    ensures { TimelyTextsAreNotLate }
{
    written_once();
    timely_or_late();
}

/// The report of a text that is late is one.
pub fn late_reports_are_one()
    ensures { LateReportsAreOne }
{
    written_once();
    tables_are_one();
}

/// What is due of a text that is refused is one.
pub fn refusals_are_one()
    ensures { RefusalsAreOne }
{
    written_or_faulty();
    texts_have_one_fault();
    late_reports_are_one();
}

/// A text whose program is timely is not refused.
pub fn timely_texts_are_not_refused()
    ensures { TimelyTextsAreNotRefused }
{
    written_or_faulty();
    timely_texts_are_not_late();
}

/// Bytes are those of one valid image.
pub fn images_held_are_one()
    ensures { ImagesHeldAreOne }
{}

/// Bytes that are those of a valid image are not refused.
pub fn image_files_are_not_refused()
    ensures { ImageFilesAreNotRefused }
{
    valid_is_without_fault();
}

/// What is due of bytes that are refused is one.
pub fn image_refusals_are_one()
    ensures { ImageRefusalsAreOne }
{}

/// What is due of `check` and of `json` is one.
pub fn reports_are_one()
    ensures { ReportsAreOne }
{
    refusals_are_one();
    timely_texts_are_not_refused();
    timely_texts_have_one_image();
}

/// What the processes of an image can spare is told by one text.
pub fn slack_texts_are_one()
    ensures { SlackTextsAreOne }
{}

/// What is due of `slack` is one.
pub fn slack_is_one()
    ensures { SlackIsOne }
{
    refusals_are_one();
    timely_texts_are_not_refused();
    timely_texts_have_one_image();
    slack_texts_are_one();
}

/// What is due of `print` is one.
pub fn print_is_one()
    ensures { PrintIsOne }
{
    written_once();
    written_or_faulty();
    texts_have_one_fault();
}

/// What is due of `compile` is one.
pub fn compile_is_one()
    ensures { CompileIsOne }
{
    refusals_are_one();
    timely_texts_are_not_refused();
    timely_texts_have_one_image();
}

/// What is due of `go` is one.
pub fn go_is_one()
    ensures { GoIsOne }
{
    refusals_are_one();
    timely_texts_are_not_refused();
    timely_texts_have_one_image();
    one_script();
    one_answer();
}

/// What is due of `run` is one.
pub fn run_is_one()
    ensures { RunIsOne }
{
    images_held_are_one();
    image_files_are_not_refused();
    image_refusals_are_one();
    one_script();
    one_answer();
}

/// What is due of `migrate` is one.
pub fn migrate_is_one()
    ensures { MigrateIsOne }
{
    images_held_are_one();
    image_files_are_not_refused();
    image_refusals_are_one();
}

/// What is due of `asm` is one.
pub fn asm_is_one()
    ensures { AsmIsOne }
{
    texts_are_of_one_image();
    texts_of_images_have_no_fault();
    image_texts_have_one_fault();
    valid_is_without_fault();
}

/// What is due of `dis` is one.
pub fn dis_is_one()
    ensures { DisIsOne }
{}

/// A run stops before one tick.
pub fn stops_are_one()
    ensures { StopsAreOne }
{}

/// What is due of `watch` is one.
pub fn watch_is_one()
    ensures { WatchIsOne }
{
    images_held_are_one();
    image_files_are_not_refused();
    image_refusals_are_one();
    one_script();
    one_answer();
    stops_are_one();
}

/// What is due of `chart` is one.
pub fn chart_is_one()
    ensures { ChartIsOne }
{
    images_held_are_one();
    image_files_are_not_refused();
    image_refusals_are_one();
    one_script();
    one_answer();
}

/// What is due of `table` is one.
pub fn table_is_one()
    ensures { TableIsOne }
{
    texts_are_one_table();
    tables_have_no_fault();
    faults_are_one();
}
