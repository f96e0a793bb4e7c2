//! The line of a load.

ghost use Rattle.std.specs.Prelude.{◌≡◌, ◌≤◌, ℕ, IfOk};
ghost use Rattle.command.specs.Due.{lines_in as count_of_lines, IsSummary};
ghost use Rattle.load.specs.Program.{program_text};
ghost use Rattle.load.specs.Script.{script_text};
ghost use Rattle.command.specs.Texts.{AreTextsOf, IsMadeOf, IsReadOf};

use crate::log::log_of;
use crate::texts::{compile_load, read_load};
use command_answers::{PreparedRun, RunnableImage};
use compile::Built;
use image_loaded::Image;
use load::{make_program, make_script, mark_after, summary_line};
use load_law::load_texts;
use out_of_memory::OutOfMemory;
use script::Script;
use std::alloc::Global;
use syntax_tree::Text;

/// The texts of a load, and the line that tells of its run.
#[derive(Drop)]
pub struct LoadTexts {
    pub program: Text,
    pub script: Text,
    pub summary: Text,
}

/// How many of the bytes end a line.
fn lines_in(bytes: &[u8]) -> u64
    ensures { result ≡ count_of_lines bytes.now }
{
    let mut lines = 0;
    for byte in bytes {
        if *byte == b'\n' {
            lines += 1;
        }
    }
    lines
}

/// The line that tells of the run of a load.
fn summary_of(
    alloc: Global,
    key: u64,
    count: u32,
    built: Built,
    script: Script,
) -> Result<Text, OutOfMemory>
    requires some { 1 ≤ count }
    requires few { count ≤ 64 }
    requires built { IsMadeOf (program_text key count) built }
    requires script { IsReadOf built (script_text key count) script }
    ensures { IfOk result (IsSummary key count) }
{
    load_texts();
    let code = built.image.code.len() as u32;
    let image = Image::of_valid(alloc, built.image)?;
    let run = PreparedRun {
        image: RunnableImage::Ranks(image),
        script,
    };
    let log = log_of(alloc, &run)?;
    let bytes = log.as_slice();
    summary_line(
        alloc,
        count,
        code,
        lines_in(bytes),
        bytes.len() as u64,
        mark_after(0, bytes),
    )
}

/// The texts of the load of a key with so many processes, from 1 to 64, and the line that tells of
/// its run.
pub fn texts_of(alloc: Global, key: u64, count: u32) -> Result<LoadTexts, OutOfMemory>
    requires some { 1 ≤ count }
    requires few { count ≤ 64 }
    ensures { IfOk result (AreTextsOf key count) }
{
    let program = make_program(alloc, key, count)?;
    let script = make_script(alloc, key, count)?;
    let built = compile_load(alloc, program.as_bytes())?;
    let read = read_load(alloc, script.as_bytes(), &built)?;
    let summary = summary_of(alloc, key, count, built, read)?;
    Ok(LoadTexts {
        program,
        script,
        summary,
    })
}
