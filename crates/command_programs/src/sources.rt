//! Program texts judged: compiled to an image that can be run and stored, or read whatever their
//! time.
//!
//! `compile` says what the answers mean; `specs/Runnable.antt` says of them that an image that
//! is built can be run over each script for its names and stored, and that a report has a name for
//! each row, which is an identifier.

ghost use Rattle.std.specs.Prelude.{◌≡◌, ◌≤◌, ℕ, List, IfOk};
ghost use Rattle.syntax.specs.Tokens.{longest_text};
ghost use Rattle.compile.specs.Compile.{Compiles};
ghost use Rattle.compile.specs.Written.{ReadsWritten};
ghost use Rattle.command_answers.specs.Contents.{IsContent};
ghost use Rattle.command_programs.specs.Runnable.{Readies};

use built_valid_law::runnable_image::built_images_are_ready;
use command_answers::Content;
use compile::{Built, CompileFault, ProgramTextFault, compile, read_written};
use replay_law::names_are_words::names_of_texts_are_identifiers;
use replay_law::stored_programs::built_images_are_held;
use static_rule::rule;
use static_semantics::Checked;
use std::alloc::Global;
use syntax_tree::Place;
use vm_law::suitable_scripts::scripts_suit;

/// Where a fault of a whole text stands.
const START: Place = Place { line: 1, col: 1 };

/// The image of the program of a text, which can be run and stored.
///
/// # Errors
///
/// As those of `compile`.
pub fn compile_text(alloc: Global, text: &[u8], over: u16) -> Result<Built, CompileFault>
    requires { over ≤ 1000 }
    ensures compiles { Compiles over text.now result }
    ensures ready { Readies result }
{
    built_images_are_ready();
    scripts_suit();
    names_of_texts_are_identifiers();
    built_images_are_held();
    compile(alloc, text, over)
}

/// The image of the program of the text that a file holds, which can be run and stored.
///
/// # Errors
///
/// As those of `compile`; the fault of a text that is too long is 4, at its first byte.
pub fn compile_content(alloc: Global, content: &Content, over: u16) -> Result<Built, CompileFault>
    requires { over ≤ 1000 }
    ensures compiles { (text : List ℕ) → IsContent longest_text content.now text →
        Compiles over text result }
    ensures ready { Readies result }
{
    match content {
        Content::Bytes(text) => compile_text(alloc, text.as_slice(), over),
        Content::TooLong => Err(CompileFault::Text {
            number: rule::LONG_TEXT,
            place: START,
        }),
    }
}

/// The program of the text that a file holds, whatever its time.
///
/// # Errors
///
/// As those of `read_written`; the fault of a text that is too long is 4, at its first byte.
pub fn read_content(alloc: Global, content: &Content) -> Result<Checked, ProgramTextFault>
    ensures { (text : List ℕ) → IsContent longest_text content.now text → ReadsWritten text result }
{
    match content {
        Content::Bytes(text) => read_written(alloc, text.as_slice()),
        Content::TooLong => Err(ProgramTextFault::Text {
            number: rule::LONG_TEXT,
            place: START,
        }),
    }
}
