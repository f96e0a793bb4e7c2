//! The routines of an image.

ghost use Rattle.std.specs.Prelude.{◌≡◌, ◌≤◌, IfOk, is_some, length, map};
ghost use Rattle.syntax_tree.specs.Placed.{placed_routine, plain_routine};
ghost use Rattle.image.specs.Raw.{routine_of};
ghost use Rattle.code_spec.specs.Layout.{count};
ghost use Rattle.code_spec.specs.Compiled.{kind_number, owner_number};
ghost use Rattle.code_names.specs.Texts.{owner_of, text_of, texts_of};
ghost use Rattle.compile_image.specs.Rows.{FitRows, FitsRow};
ghost use Rattle.compile_image.specs.Told.{routine_told, routines_told};

use crate::errors::tri;
use code_cost::RoutineMeasure;
use code_names::{Body, RoutineOwner};
use codegen_spec::Part;
use image::RawRoutine;
use image_format::SegTree;
use out_of_memory::OutOfMemory;
use std::alloc::Global;
use syntax_tree::{List, Routine};

/// The number that tells whose a routine is: the program's, a process's or a monitor's.
fn kind(owner: RoutineOwner) -> u8
    ensures { result ≡ kind_number (owner_of owner) }
{
    match owner {
        RoutineOwner::Program => 0,
        RoutineOwner::Process(_) => 1,
        RoutineOwner::Monitor(_) => 2,
    }
}

/// The number of the process or monitor whose a routine is, 0 for one of the program.
fn owner_index(owner: RoutineOwner) -> u16
    requires { owner_number (owner_of owner) ≤ 65535 }
    ensures { result ≡ owner_number (owner_of owner) }
{
    match owner {
        RoutineOwner::Program => 0,
        RoutineOwner::Process(number) | RoutineOwner::Monitor(number) => number as u16,
    }
}

/// How many parameters a routine has.
fn params(routine: &Routine) -> u16
    requires { count (plain_routine (placed_routine routine.now)).params ≤ 4096 }
    ensures { result ≡ count (plain_routine (placed_routine routine.now)).params }
{
    routine.params.len() as u16
}

/// Whether a routine is a function.
fn answers(routine: &Routine) -> bool
    ensures { result ≡ is_some (plain_routine (placed_routine routine.now)).answers }
{
    routine.result.is_some() && routine.value.is_some()
}

/// A routine with its part of the code and its measures.
fn raw_routine(
    alloc: Global,
    text: Body<'_>,
    part: &Part,
    row: RoutineMeasure,
) -> Result<RawRoutine, OutOfMemory>
    requires { FitsRow (text_of text) part.now row }
    ensures { IfOk result (λ raw. routine_of raw ≡ routine_told (text_of text.entry) part.now row) }
{
    let tree = tri!(SegTree::of(alloc, part.tree.as_slice()));
    Ok(RawRoutine {
        kind: kind(text.owner),
        owner: owner_index(text.owner),
        params: params(text.routine),
        locals: row.words as u32,
        result: answers(text.routine),
        start: part.start as u32,
        run: row.cost.run as u32,
        susp: row.cost.susp as u32,
        waits: row.cost.waits as u32,
        stay: row.stay as u32,
        tree,
    })
}

/// The routines by number.
pub fn raw_routines(
    alloc: Global,
    texts: &[Body<'_>],
    parts: &[Part],
    rows: &[RoutineMeasure],
) -> Result<List<RawRoutine>, OutOfMemory>
    requires parts { length parts.now ≡ length texts.now }
    requires rows { length rows.now ≡ length texts.now }
    requires fits { FitRows (texts_of texts.now) parts.now rows.now }
    ensures { IfOk result (λ list. map routine_of list ≡
        routines_told (texts_of texts.now) parts.now rows.now) }
{
    let mut list = List::new(alloc);
    for (number, text) in texts.iter().enumerate() {
        let raw = tri!(raw_routine(alloc, *text, &parts[number], rows[number]));
        tri!(list.push(raw));
    }
    Ok(list)
}
