//! Printing a program.

ghost use Rattle.std.specs.Prelude.{◌≡◌, IfOk};
ghost use Rattle.syntax_tree.specs.Placed.{placed};
ghost use Rattle.syntax_tree.specs.Bare.{bare};
ghost use Rattle.syntax_printer.specs.Canonical.{canonical};

use crate::page::Page;
use out_of_memory::OutOfMemory;
use std::alloc::Global;
use syntax_tree::{Program, Text};

/// The canonical text of the program: a line for each of the program's first line, each `const`,
/// `device`, `event`, `var` and `condition`, each header, `begin`, `handler`, simple statement,
/// `if`, `else`, `for` and `return`, and each `end` with its word.
///
/// # Errors
///
/// Only where there is not enough memory for the text.
pub fn print(alloc: Global, prog: &Program) -> Result<Text, OutOfMemory>
    ensures { IfOk result (λ text. text ≡ canonical (bare (placed prog.now))) }
{
    let mut page = Page {
        text: Text::new(alloc),
        fresh: true,
    };
    page.prog(prog)?;
    Ok(page.text)
}
