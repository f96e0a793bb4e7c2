//! What `why` and `fit` find of a text.

ghost use Rattle.std.specs.Prelude.{◌≡◌, ◌≤◌, ℕ, List, Err, IfErr, IfOk};
ghost use Rattle.syntax_tree.specs.Placed.{placed};
ghost use Rattle.command_due.specs.Source.{IsWritten};
ghost use Rattle.compile.specs.Written.{ReadsWritten};
ghost use Rattle.analysis_command.specs.Told.{AreBoundsOf, IsFitOfText};

use crate::late::late_program;
use crate::{fit_text, why_text};
use compile::{LateProgram, ProgramTextFault, read_written};
use out_of_memory::OutOfMemory;
use static_semantics::Checked;
use std::alloc::Global;
use syntax_tree::Text;

/// The text that takes the bounds of a program apart, and what its report shows where it is late.
#[derive(Drop)]
pub struct JudgedBounds {
    pub text: Text,
    pub late: Option<LateProgram>,
}

/// The bounds of a program, taken apart and judged. Only want of memory is an error.
fn judged_bounds(alloc: Global, program: &Checked, over: u16) -> Result<JudgedBounds, OutOfMemory>
    ghost text: { List ℕ }
    requires over { over ≤ 1000 }
    requires written { IsWritten text (placed program.now) }
    ensures { IfOk result (AreBoundsOf over text) }
{
    let why = why_text(alloc, program, over)?;
    if why.in_time {
        Ok(JudgedBounds {
            text: why.text,
            late: None,
        })
    } else {
        let late = late_program(alloc, program, over)?;
        Ok(JudgedBounds {
            text: why.text,
            late: Some(late),
        })
    }
}

/// The bounds of the program of a text, which has these bytes, taken apart and judged.
///
/// # Errors
///
/// As those of `read_written`.
pub fn bounds_of_text(
    alloc: Global,
    text: &[u8],
    over: u16,
) -> Result<JudgedBounds, ProgramTextFault>
    ghost bytes: { List ℕ }
    requires bytes { text.now ≡ bytes }
    requires over { over ≤ 1000 }
    ensures bounds { IfOk result (AreBoundsOf over bytes) }
    ensures fault { IfErr result (λ why. ReadsWritten bytes (Err why)) }
{
    let program = read_written(alloc, text)?;
    match judged_bounds(alloc, &program, over) {
        Ok(bounds) => Ok(bounds),
        Err(error) => Err(ProgramTextFault::Memory(error)),
    }
}

/// What fits of the program of a text, which has these bytes.
///
/// # Errors
///
/// As those of `read_written`.
pub fn fit_of_text(alloc: Global, text: &[u8], over: u16) -> Result<Text, ProgramTextFault>
    ghost bytes: { List ℕ }
    requires bytes { text.now ≡ bytes }
    requires over { over ≤ 1000 }
    ensures fits { IfOk result (IsFitOfText over bytes) }
    ensures fault { IfErr result (λ why. ReadsWritten bytes (Err why)) }
{
    let program = read_written(alloc, text)?;
    match fit_text(alloc, &program, over) {
        Ok(fits) => Ok(fits),
        Err(error) => Err(ProgramTextFault::Memory(error)),
    }
}
