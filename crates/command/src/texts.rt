//! The texts of a load, compiled and read.

ghost use Rattle.std.specs.Prelude.{IfOk};
ghost use Rattle.command.specs.Texts.{IsMadeOf, IsProgramText, IsReadOf, IsScriptText};

use command_programs::compile_text;
use compile::{Built, CompileFault};
use load_law::load_texts;
use out_of_memory::OutOfMemory;
use script::{Script, ScriptFault, one_answer, read_script};
use std::alloc::Global;

/// The image of the program of a load, which is timely.
pub fn compile_load(alloc: Global, text: &[u8]) -> Result<Built, OutOfMemory>
    requires { IsProgramText text.now }
    ensures { IfOk result (IsMadeOf text.now) }
{
    load_texts();
    match compile_text(alloc, text, 0) {
        Ok(built) => Ok(built),
        Err(CompileFault::Memory(error)) => Err(error),
        Err(CompileFault::Text { .. }) => unreachable!(),
        Err(CompileFault::Untimely(_)) => unreachable!(),
    }
}

/// The script of a load, for the names of its image.
pub fn read_load(alloc: Global, text: &[u8], built: &Built) -> Result<Script, OutOfMemory>
    requires { IsScriptText built.now text.now }
    ensures { IfOk result (IsReadOf built.now text.now) }
{
    load_texts();
    one_answer();
    match read_script(alloc, text, &built.image.names) {
        Ok(script) => Ok(script),
        Err(ScriptFault::Memory(error)) => Err(error),
        Err(ScriptFault::Bad { .. }) => unreachable!(),
    }
}
