//! Routines and entries that calls name.

ghost use Rattle.std.specs.Prelude.{◌≡◌, IfOk};
ghost use Rattle.syntax_tree.specs.Placed.{placed, plain};
ghost use Rattle.codegen_texts.specs.Shared.{callees_told};

use code_layout::{Tables, callee};
use codegen_spec::Callee;
use out_of_memory::OutOfMemory;
use std::alloc::Global;

/// All routines and entries as calls are told of them, in the order of the text.
pub fn callees(alloc: Global, tables: &Tables<'_>) -> Result<Vec<Callee>, OutOfMemory>
    ensures { IfOk result (λ callees. callees.items ≡ callees_told (plain (placed tables.now))) }
{
    let mut callees = Vec::new(alloc);
    for text in tables.numbering().directory().texts().as_slice() {
        let told = callee(alloc, tables, *text)?;
        callees.push(told)?;
    }
    Ok(callees)
}
