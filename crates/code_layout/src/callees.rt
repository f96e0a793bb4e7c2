//! Routines that are called.

ghost use Rattle.std.specs.Prelude.{◌≡◌, IfOk, map};
ghost use Rattle.syntax_tree.specs.Placed.{placed, placed_param, plain, plain_param};
ghost use Rattle.codegen_spec.specs.Told.{callee as callee_of, range_told};
ghost use Rattle.code_names.specs.Texts.{text_of};

use crate::tables::Tables;
use crate::{ConstantValues, range_of};
use code_names::Body;
use codegen_spec::{Callee, ValueRange};
use out_of_memory::OutOfMemory;
use std::alloc::Global;
use syntax_tree::{List, Param};

/// The range of each parameter, if it has one.
fn ranges(
    alloc: Global,
    values: &ConstantValues<'_>,
    params: &[Param],
) -> Result<List<Option<ValueRange>>, OutOfMemory>
    ensures { IfOk result (λ ranges. ranges ≡
        map (λ p. range_told (plain (placed values.now)) p.kind)
        (map plain_param (map placed_param params.now))) }
{
    let mut ranges = List::new(alloc);
    for param in params {
        ranges.push(range_of(values, &param.kind))?;
    }
    Ok(ranges)
}

/// A routine that is called: its number, and the range of each of its parameters.
pub fn callee(alloc: Global, tables: &Tables<'_>, text: Body<'_>) -> Result<Callee, OutOfMemory>
    ensures { IfOk result (λ callee. callee ≡
        callee_of (plain (placed tables.now)) (text_of text.entry)) }
{
    let number = tables.numbering().number(text);
    let ranges = ranges(alloc, tables.values(), text.routine.params.as_slice())?;
    Ok(Callee { number, ranges })
}
