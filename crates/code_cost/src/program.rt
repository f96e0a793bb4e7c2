//! The measures of a whole program.

ghost use Rattle.std.specs.Prelude.{◌≡◌, ◌∷◌, ◌++◌, [], IfOk, OnOk};
ghost use Rattle.syntax_tree.specs.Placed.{optional, placed_handler, placed_process, placed_routine, placed_scalar, plain_handler, plain_process, plain_routine, plain_scalar};
ghost use Rattle.source_semantics.specs.Names.{processes as processes_of};
ghost use Rattle.code_spec.specs.Numbering.{numbered};
ghost use Rattle.codegen_spec.specs.Told.{range_told};
ghost use Rattle.code_cost.specs.Parts.{answers_size, handler_size, inner_size, measures_of, part_size, process_size, row_of as known_of, rows_from, rows_of, sizes_from, loop_words as words_of_loops};
ghost use Rattle.code_cost.specs.Sums.{held};

use crate::expressions::{check, expr};
use crate::loops::count_from;
use crate::measure::{MOST, Measure, RoutineMeasure, cap, hold};
use crate::statements::stmts;
use base::Cost;
use codegen_spec::{Lookup, Lookups, Owner, ValueRange};
use machine_isa::Instr;
use out_of_memory::OutOfMemory;
use std::alloc::Global;
use syntax_tree::{Handler, List, Process, Routine, Scalar};

/// What a process takes at most: the cost of an activation, dispatches left aside, the words of
/// its stack, and the number of its instructions.
#[derive(Clone, Copy)]
pub struct ProcessMeasure {
    pub cost: Cost,
    pub stack: u64,
    pub length: u64,
}

/// The routines and entries of a program by their numbers, and its processes in the order of the
/// text.
#[derive(Drop)]
pub struct Measures {
    pub routines: List<RoutineMeasure>,
    pub processes: List<ProcessMeasure>,
}

/// The range of a type, if it has one.
fn range_of<L: Lookup>(names: &L, kind: &Scalar) -> Option<ValueRange>
    ensures { result ≡ range_told (L.program names.now) (plain_scalar (placed_scalar kind.now)) }
{
    match kind {
        Scalar::Int | Scalar::Boolean => None,
        Scalar::Subrange { low, high } => Some(ValueRange {
            low: names.value(low),
            high: names.value(high),
        }),
    }
}

/// The result of a function, with the check of its range.
fn answer<L: Lookup>(names: &L, rows: &[RoutineMeasure], routine: &Routine) -> Measure
    ensures { result ≡ answers_size (L.program names.now) (L.scope names.now) rows.now
        (plain_routine (placed_routine routine.now)).answers }
{
    match (&routine.result, &routine.value) {
        (Some(kind), Some(value)) => {
            expr(names, rows, &[], value).then(check(range_of(names, kind)))
        }
        _ => Measure::nothing(),
    }
}

/// The body of a routine and its result.
fn inner<L: Lookup>(
    alloc: Global,
    names: &L,
    rows: &[RoutineMeasure],
    routine: &Routine,
) -> Result<Measure, OutOfMemory>
    ensures { IfOk result (λ m. m ≡ inner_size (L.program names.now) (L.scope names.now) rows.now
        (plain_routine (placed_routine routine.now))) }
{
    let mut loops = Vec::new(alloc);
    let body = stmts(alloc, names, rows, &mut loops, routine.body.as_slice())?;
    Ok(body.then(answer(names, rows, routine)))
}

/// Words, up to `MOST`.
fn held_words(words: u128) -> u64
    ensures { result ≡ held words }
{
    words.min(u128::from(MOST)) as u64
}

/// What is known of a routine, from those before it; its parameters and variables take so many
/// words.
fn row<L: Lookup>(
    alloc: Global,
    names: &L,
    words: u128,
    rows: &[RoutineMeasure],
    routine: &Routine,
) -> Result<RoutineMeasure, OutOfMemory>
    ensures { IfOk result (λ k. k ≡ known_of (L.program names.now)
        (L.scope names.now) words rows.now (plain_routine (placed_routine routine.now))) }
{
    let inner = inner(alloc, names, rows, routine)?;
    let (frame, stay) = match names.owner() {
        Owner::Monitor { .. } => (Measure::of(12, 0, 3), cap(inner.cost.run, 3)),
        Owner::Program | Owner::Process { .. } => (Measure::instr(&Instr::Return, 0), 0),
    };
    let size = inner.then(frame);
    Ok(RoutineMeasure {
        cost: size.cost,
        stay,
        height: size.height,
        words: count_from(held_words(words), routine.body.as_slice()),
        length: size.length,
    })
}

/// All routines by number.
fn rows<P: Lookups>(alloc: Global, program: &P) -> Result<List<RoutineMeasure>, OutOfMemory>
    ensures { IfOk result (λ rows. rows ≡ rows_of (P.program program.now)) }
{
    let mut rows = List::new(alloc);
    for number in 0..program.routines() {
        let names = program.routine_names(number);
        let words = program.words(number);
        let next = row(
            alloc,
            names,
            words,
            rows.as_slice(),
            program.routine(number),
        )?;
        rows.push(next)?;
    }
    Ok(rows)
}

/// The handler of a process, if it has one, with its END.
fn handler<L: Lookup>(
    alloc: Global,
    names: &L,
    rows: &[RoutineMeasure],
    handler: &Option<Handler>,
) -> Result<Measure, OutOfMemory>
    ensures { IfOk result (λ m. m ≡ handler_size (L.program names.now) (L.scope names.now) rows.now
        (optional plain_handler (optional placed_handler handler.now))) }
{
    match handler {
        None => Ok(Measure::nothing()),
        Some(handler) => {
            let mut loops = Vec::new(alloc);
            let body = stmts(alloc, names, rows, &mut loops, handler.body.as_slice())?;
            Ok(body.then(Measure::of(0, 0, 1)))
        }
    }
}

/// The words of a process's loops, those of its handler among them.
fn loop_words(process: &Process) -> u64
    ensures { result ≡ held (words_of_loops (plain_process (placed_process process.now))) }
{
    let body = count_from(0, process.body.as_slice());
    match &process.handler {
        None => body,
        Some(handler) => count_from(body, handler.body.as_slice()),
    }
}

/// What a process takes.
fn process<L: Lookup>(
    alloc: Global,
    names: &L,
    rows: &[RoutineMeasure],
    process: &Process,
) -> Result<ProcessMeasure, OutOfMemory>
    ensures { IfOk result (λ m. m ≡ process_size (L.program names.now) (L.scope names.now) rows.now
        (plain_process (placed_process process.now))) }
{
    let mut loops = Vec::new(alloc);
    let body = stmts(alloc, names, rows, &mut loops, process.body.as_slice())?;
    let handler = handler(alloc, names, rows, &process.handler)?;
    let size = body.then(handler).then(Measure::instr(&Instr::End, 0));
    Ok(ProcessMeasure {
        cost: size.cost,
        stack: hold(loop_words(process), size.height),
        length: size.length,
    })
}

/// The measures of a program: those of its routines, each from those that it calls, which have
/// lower numbers, and those of its processes. It fails only where memory is wanting.
pub fn measure_program<P: Lookups>(alloc: Global, program: &P) -> Result<Measures, OutOfMemory>
    ensures { IfOk result (λ m. m ≡ measures_of (P.program program.now)) }
{
    let routines = rows(alloc, program)?;
    let mut processes = List::new(alloc);
    for number in 0..program.processes() {
        let names = program.process_names(number);
        let next = process(alloc, names, routines.as_slice(), program.process(number))?;
        processes.push(next)?;
    }
    Ok(Measures {
        routines,
        processes,
    })
}
