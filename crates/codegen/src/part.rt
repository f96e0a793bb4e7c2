//! The code of one routine, and of one process with its handler.

ghost use Rattle.std.specs.Prelude.{◌≡◌, OnOk, IfOk, Some, option_map};
ghost use Rattle.syntax_tree.specs.Placed.{optional, placed_handler, placed_routine, plain_handler, plain_routine};
ghost use Rattle.codegen_spec.specs.Parts.{answer_out, entered, handler_part, inner_out, left, process_out, return_of, routine_out};

use crate::errors::tri;
use crate::{CodeBuilder, range_of};
use codegen_branches::fit;
use codegen_spec::{Lookup, Owner, Part};
use image_format::{Seg, Segs};
use machine_isa::Instr;
use out_of_memory::OutOfMemory;
use syntax_tree::{Handler, Routine};

/// The instruction that ends a routine.
pub fn return_from(routine: &Routine) -> Instr
    ensures { result ≡ return_of (plain_routine (placed_routine routine.now)).answers }
{
    match (&routine.result, &routine.value) {
        (Some(_), Some(_)) => Instr::ReturnValue,
        _ => Instr::Return,
    }
}

/// The result of a function, with the check of its range.
fn answer<L: Lookup>(out: &mut CodeBuilder, names: &L, routine: &Routine) -> Result<(), OutOfMemory>
    ensures { OnOk result (out.new
        ≡ answer_out (L.program names.now) (L.scope names.now)
        (plain_routine (placed_routine routine.now)).answers out.old) }
{
    match (&routine.result, &routine.value) {
        (Some(kind), Some(value)) => {
            tri!(out.expr(names, &[], value));
            out.range(&range_of(names, kind))
        }
        _ => Ok(()),
    }
}

/// The statements of a routine and its result.
fn inner<L: Lookup>(out: &mut CodeBuilder, names: &L, routine: &Routine) -> Result<(), OutOfMemory>
    ensures { OnOk result (out.new ≡ inner_out (L.program names.now) (L.scope names.now)
        (plain_routine (placed_routine routine.now)) out.old) }
{
    tri!(out.statements(names, routine.body.as_slice()));
    answer(out, names, routine)
}

/// The end of a stay in a monitor.
fn leave(out: &mut CodeBuilder, number: usize) -> Result<(), OutOfMemory>
    ensures { OnOk result (out.new ≡ left number out.old) }
{
    let monitor = u16::try_from(number).unwrap_or(u16::MAX);
    let body = tri!(out.take());
    tri!(out.push(Instr::Leave {
        monitor: fit(number),
    }));
    let stay = tri!(Seg::stay(out.alloc, monitor, body));
    out.join(Segs::new(out.alloc), stay)
}

/// An entry but for its return: a stay in its monitor.
fn stay<L: Lookup>(
    out: &mut CodeBuilder,
    names: &L,
    number: usize,
    routine: &Routine,
) -> Result<(), OutOfMemory>
    ensures { OnOk result (out.new ≡ left number
        (inner_out (L.program names.now) (L.scope names.now)
        (plain_routine (placed_routine routine.now)) (entered number out.old))) }
{
    tri!(out.push(Instr::Enter {
        monitor: fit(number),
    }));
    out.begin();
    tri!(inner(out, names, routine));
    leave(out, number)
}

/// A routine or entry but for its return.
pub fn text<L: Lookup>(
    out: &mut CodeBuilder,
    names: &L,
    routine: &Routine,
) -> Result<(), OutOfMemory>
    ensures { OnOk result (out.new ≡ routine_out (L.program names.now) (L.scope names.now)
        (L.scope names.now).owner (plain_routine (placed_routine routine.now)) out.old) }
{
    match names.owner() {
        Owner::Monitor { number } => stay(out, names, number, routine),
        Owner::Program | Owner::Process { .. } => inner(out, names, routine),
    }
}

/// The handler of a process, behind its body.
fn handler_of<L: Lookup>(
    out: &mut CodeBuilder,
    names: &L,
    handler: &Handler,
) -> Result<Part, OutOfMemory>
    ensures code { OnOk result (out.new.code ≡
        (process_out (L.program names.now) (L.scope names.now)
        (Some (plain_handler (placed_handler handler.now))) out.old).code) }
    ensures part { IfOk result (λ part. part ≡
        handler_part (L.program names.now) (L.scope names.now) out.old
        (plain_handler (placed_handler handler.now))) }
{
    let start = out.address();
    out.begin();
    tri!(out.statements(names, handler.body.as_slice()));
    out.end_part(start, Instr::End)
}

/// The handler of a process, if it has one, behind its body.
pub fn handler<L: Lookup>(
    out: &mut CodeBuilder,
    names: &L,
    handler: &Option<Handler>,
) -> Result<Option<Part>, OutOfMemory>
    ensures code { OnOk result (out.new.code ≡
        (process_out (L.program names.now) (L.scope names.now)
        (optional plain_handler (optional placed_handler handler.now)) out.old).code) }
    ensures part { IfOk result (λ part. part ≡
        option_map (λ h. handler_part (L.program names.now) (L.scope names.now) out.old h)
        (optional plain_handler (optional placed_handler handler.now))) }
{
    match handler {
        None => Ok(None),
        Some(handler) => {
            let part = tri!(handler_of(out, names, handler));
            Ok(Some(part))
        }
    }
}
