//! The lines of routines.

ghost use Rattle.std.specs.Prelude.{◌≡◌, ◌++◌, OnOk};
ghost use Rattle.image.specs.Raw.{routine_of};
ghost use Rattle.asm_format.specs.Text.{bit, cost_text, owner_text, place_text, routine_lines, stay_text};

use crate::numbers::put_field;
use crate::trees::put_tree;
use image::RawRoutine;
use out_of_memory::OutOfMemory;
use std::alloc::Global;
use syntax_tree::Text;

/// Puts whose a routine is.
fn put_owner(text: &mut Text, kind: u8, owner: u16) -> Result<(), OutOfMemory>
    ensures { OnOk result (text.new ≡ text.old ++ owner_text kind owner) }
{
    match kind {
        0 => text.extend(b"program")?,
        1 => put_field(text, b"process ", u32::from(owner))?,
        _ => put_field(text, b"monitor ", u32::from(owner))?,
    }
    Ok(())
}

/// 1 for yes and 0 for no.
fn bit_of(holds: bool) -> u32
    ensures { result ≡ bit holds }
{
    if holds { 1 } else { 0 }
}

/// Puts what a routine has of memory, whether it has a result, and where it begins.
fn put_place(text: &mut Text, routine: &RawRoutine) -> Result<(), OutOfMemory>
    ensures { OnOk result (text.new ≡ text.old ++ place_text (routine_of routine.now)) }
{
    put_field(text, b" params ", u32::from(routine.params))?;
    put_field(text, b" locals ", routine.locals)?;
    put_field(text, b" result ", bit_of(routine.result))?;
    put_field(text, b" start ", routine.start)?;
    Ok(())
}

/// Puts the stay of a monitor's routine.
fn put_stay(text: &mut Text, kind: u8, stay: u32) -> Result<(), OutOfMemory>
    ensures { OnOk result (text.new ≡ text.old ++ stay_text kind stay) }
{
    match kind {
        0 | 1 => {}
        _ => put_field(text, b" stay ", stay)?,
    }
    Ok(())
}

/// Puts what a routine takes of time.
fn put_cost(text: &mut Text, routine: &RawRoutine) -> Result<(), OutOfMemory>
    ensures { OnOk result (text.new ≡ text.old ++ cost_text (routine_of routine.now)) }
{
    put_field(text, b" run ", routine.run)?;
    put_field(text, b" suspend ", routine.susp)?;
    put_field(text, b" waits ", routine.waits)?;
    put_stay(text, routine.kind, routine.stay)?;
    Ok(())
}

/// Puts a routine, and the line of its tree.
pub fn put_routine(alloc: Global, text: &mut Text, routine: &RawRoutine) -> Result<(), OutOfMemory>
    ensures { OnOk result (text.new ≡ text.old ++ routine_lines (routine_of routine.now)) }
{
    text.extend(b"routine ")?;
    put_owner(text, routine.kind, routine.owner)?;
    put_place(text, routine)?;
    put_cost(text, routine)?;
    text.extend(b"\n")?;
    put_tree(alloc, text, &routine.tree)?;
    Ok(())
}
