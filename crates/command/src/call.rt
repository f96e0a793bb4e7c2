//! The top call.

ghost use Rattle.std.specs.Prelude.{◌≡◌, ◌≢◌, ◌<◌, ◌↔◌, ◌⊎◌, ℕ, List, Some, None};
ghost use Rattle.std.specs.Bool.{OnTrue};
ghost use Rattle.outside.specs.Outside.{outside, AllStay};
ghost use Rattle.command_words.specs.Calls.{Call, Load};
ghost use Rattle.command_words.specs.Words.{IsCommand, IsMake};
ghost use Rattle.command_answers.specs.Acts.{number_of};
ghost use Rattle.command_answers.specs.Files.{IsDue};
ghost use Rattle.command_answers.specs.Went.{Went, Completes, IsUsage};
ghost use Rattle.command_due.specs.CommandsDue.{Outcome};
ghost use Rattle.command.specs.Explained.{IsToldRight};
ghost use Rattle.command.specs.Told.{IsRefusal};
ghost use Rattle.command.specs.Made.{Made};
ghost use Rattle.command_answers.specs.Promise.{HasDone, IsRefusedForTime};
ghost use Rattle.command.specs.Targets.{IsNoTarget};
ghost use Rattle.command.specs.Tried.{HasEnded, HasRead, HasWritten};

use crate::carry::carry_out;
use asm_law::text_and_image::images_told_are_held;
use built_tasks_law::judged_by_text::{
    bounds_are_of_the_text, built_is_in_time, late_is_not_in_time,
};
use command_answers::Status;
use command_due_law::one_answer::{
    asm_is_one, chart_is_one, compile_is_one, dis_is_one, go_is_one, migrate_is_one, print_is_one,
    reports_are_one, run_is_one, slack_is_one, table_is_one, watch_is_one, written_once,
    written_or_faulty,
};
use command_due_law::one_judgement::answers_of_texts_are_one;
use command_words::words::overheads_are_decimal;
use compiler_correct::faithful_images::built_images_are_faithful;
use edf_correct::feasible_texts::feasible_texts_keep_their_word;
use image_reader_law::images_read_are_in_their_ranges;
use image_reader_law::stored_images::images_read_are_held_again;
use outside::{Files, Sink};
use printed_law::printed_programs::printed_trees_are_written;
use replay_law::stored_programs::built_images_are_held;
use sched_program::one_judgement::never_in_time_and_not;
use std::alloc::Global;
use syntax_printer::{reads_back, tokens_are_spelled};
use syntax_tree::Text;
use table_law::table_text_is_written;
use valid_image_law::validity_law::every_valid_image_is_safe_and_in_time;
use vm_law::suitable_scripts::scripts_suit;

/// Does what the words ask:
///
/// - `go P I S [K]` stores the image of the program text in file P in file I, and puts the report
///   on it and the log of its run over the script in file S; K is the overhead, the ticks of one
///   dispatch, from 0 to 1000, and 0 where it is left out;
/// - `compile P I [K]` stores the image, and puts the report;
/// - `check P [K]` puts the report, `json P [K]` the same as JSON, `slack P [K]` how many ticks each
///   process can spare, `print P` the canonical text of the program;
/// - `run I S` puts the log of the image in file I over the script in file S, and `migrate I J`
///   stores the image in the present version in file J;
/// - `asm A I` stores the image whose text is in file A in file I, and `dis I A` the text of the
///   image in file I, valid or not, in file A;
/// - `watch I S T` puts the state of the run of the image in file I over the script in file S before
///   tick T, and `watch I S @A` right after the first effect of the instruction at address A;
/// - `replay P S L` puts how many events the log in file L has, where they are a run of the program
///   over the script, and else the line that is refused;
/// - `why P [K]` puts the bounds of the program, taken apart, and `fit P [K]` the greatest overhead,
///   and the greatest cost and suspension of each process, with which it is in time;
/// - `chart I S A B` draws the run of the image in file I over the script in file S, from tick A on,
///   below tick B;
/// - `table F P` stores the program of the task table in file F in file P;
/// - `edf P S` puts the report on the demand of program P, which has no wait, and the log of its run
///   over script S under earliest deadline first;
/// - `make K N P S` stores a program of N processes in file P and a script for it in file S, which
///   key K draws, and puts how many instructions the program has, and how many lines and bytes the
///   log of its run, with a mark of these bytes.
///
/// All other words are refused, as is a word that is empty or begins with `-`.
///
/// The answer is the first status that is due in the order of the steps: the words, reading P, I, A
/// or F, its faults, its time, reading S, its faults, reading L, its faults and the verdict,
/// storing, putting. `make` reads nothing, and its texts have no fault. The want of memory, 8, may
/// come at any step. With status 2, 3, 4, 5 and 9 the given message is what a person is to be told;
/// with another it says nothing.
pub fn rte<'a, F: Files, O: Sink>(
    alloc: Global,
    words: &'a [String],
    files: &mut F,
    out: &mut O,
    message: &mut Text,
) -> Status<'a>
    // A call of a command went as is due, by what its files hold.
    ensures went { (call : Call) → IsCommand words.now call → Went F.tells call
        (outside (F.state files.old) (O.state out.old))
        (outside (F.state files.new) (O.state out.new)) (number_of result) }
    // Where no failure is counted, what is due is done whole, or the status is 8.
    ensures complete { (call : Call) → IsCommand words.now call → OnTrue F.tells (Completes call
        (outside (F.state files.old) (O.state out.old))
        (outside (F.state files.new) (O.state out.new)) (number_of result)) }
    // So did `make`: its status is 0, 7 or 8.
    ensures made { (load : Load) → IsMake words.now load → Made F.tells load
        (outside (F.state files.old) (O.state out.old))
        (outside (F.state files.new) (O.state out.new)) (number_of result) }
    // All other words are refused.
    ensures usage { ((call : Call) → ¬ IsCommand words.now call) →
        ((load : Load) → ¬ IsMake words.now load) → IsUsage
        (outside (F.state files.old) (O.state out.old))
        (outside (F.state files.new) (O.state out.new)) (number_of result) }
    // Of every call but `make`: with a status but 0 and 7 no file has changed. Of every call: no
    // file changes but those that are written.
    ensures kept { ((load : Load) → ¬ IsMake words.now load) → 0 < number_of result →
        number_of result ≢ 7 → AllStay (F.state files.old).held (F.state files.new).held }
    ensures others { (name : List ℕ) → IsNoTarget words.now name →
        (F.state files.new).held name ≡ (F.state files.old).held name }
    // Where no image is due no file changes.
    ensures refused { (call : Call) → IsCommand words.now call →
        OnTrue F.tells ((outcome : Outcome) →
        IsDue call (F.state files.old).held outcome → outcome.image ≡ None →
        AllStay (F.state files.old).held (F.state files.new).held) }
    // So once a file has changed, the status is 0 or 7, but of `make`.
    ensures stored { ((load : Load) → ¬ IsMake words.now load) → (name : List ℕ) →
        (F.state files.new).held name ≢ (F.state files.old).held name →
        (number_of result ≡ 0) ⊎ (number_of result ≡ 7) }
    // With a status but 7 the sink's count of faults is what it was.
    ensures quiet { number_of result ≢ 7 → (O.state out.new).faults ≡ (O.state out.old).faults }
    // A file that failed is one that the words let the call read, or write, and the status names it.
    ensures cause { HasEnded words.now (outside (F.state files.old) (O.state out.old))
        (outside (F.state files.new) (O.state out.new)) result }
    // Each file that the words name is read at most once, in the order of the steps, and no other;
    // with status 0 all that are to be read.
    ensures reads { HasRead words.now (F.state files.old).reads (F.state files.new).reads
        (number_of result) }
    // Each that is to be written is written at most once, and no other; but of `make` only with
    // status 0, 7 and 8.
    ensures writes { HasWritten words.now (F.state files.old).writes (F.state files.new).writes
        (number_of result) }
    // A command that is refused by what a file holds: the message tells the fault whose line, or the
    // lateness whose report, was put, by the bytes of that file and the name that the words have for
    // it.
    ensures told { (call : Call) → IsCommand words.now call → OnTrue F.tells (IsRefusal result →
        IsToldRight call (outside (F.state files.old) (O.state out.old))
        (outside (F.state files.new) (O.state out.new)) (number_of result) message.new) }
    // Status 0: of `go`, the text is that of a program that is in time by its text, with these
    // bounds, and the script one, what is stored is the image of the program and holds it, what was
    // put is its report and the log of that image over the script; and over every script for its
    // names, the events of that image are a run of the program, never stuck, within its sizes, and
    // each activation whose bound is not past the script's end in time. Of the other commands what
    // `HasDone` has of each.
    ensures done { (call : Call) → IsCommand words.now call →
        OnTrue F.tells (number_of result ≡ 0 → HasDone call
        (outside (F.state files.old) (O.state out.old))
        (outside (F.state files.new) (O.state out.new))) }
    // Below 6, status 3 of `go`, `check`, `compile`, `json`, `slack` and `why` comes exactly where
    // the recurrence of some process of the program, by its text, has no solution within its
    // deadline; of `edf` exactly where the program has no wait and the test does not say that its
    // demand is met; of the others never.
    ensures late { (call : Call) → IsCommand words.now call → OnTrue F.tells (number_of result < 6 →
        (number_of result ≡ 3) ↔ IsRefusedForTime call
        (outside (F.state files.old) (O.state out.old))) }
{
    built_images_are_faithful();
    every_valid_image_is_safe_and_in_time();
    images_read_are_in_their_ranges();
    scripts_suit();
    reports_are_one();
    slack_is_one();
    print_is_one();
    compile_is_one();
    go_is_one();
    run_is_one();
    migrate_is_one();
    asm_is_one();
    dis_is_one();
    watch_is_one();
    chart_is_one();
    table_is_one();
    images_told_are_held();
    images_read_are_held_again();
    built_images_are_held();
    overheads_are_decimal();
    feasible_texts_keep_their_word();
    answers_of_texts_are_one();
    written_or_faulty();
    written_once();
    built_is_in_time();
    late_is_not_in_time();
    never_in_time_and_not();
    bounds_are_of_the_text();
    reads_back();
    printed_trees_are_written();
    table_text_is_written();
    tokens_are_spelled();
    carry_out(alloc, message, words, files, out)
}
