//! Starts, trees, heights and coverage.

ghost use Rattle.std.specs.Prelude.{◌≡◌, ◌≤◌, ◌<◌, ◌+◌, [], IfNone, IfOk, IfSome, Some, length, map, nat_eq};
ghost use Rattle.loader_code.specs.TreesTold.{EndsAt, found_of, known_of, told, told_part};
ghost use Rattle.loader_code.specs.Whole.{stay_in};
ghost use Rattle.image.specs.Raw.{image_of, process_of, routine_of};
ghost use Rattle.machine_semantics.specs.Trees.{size};
ghost use Rattle.base.specs.Capped.{cap};
ghost use Rattle.valid_image.specs.Fault.{first_in};
ghost use Rattle.valid_image.specs.Found.{amount, guard};
ghost use Rattle.valid_image.specs.Pieces.{due_start, handler_length, pieces};
ghost use Rattle.valid_image.specs.Shape.{process_shape_fault, routine_shape_fault, shape_fault as defined_fault};
ghost use Rattle.valid_image.specs.Tables.{count, handler_start, monitor_of, part_found as defined_part, routine_found as defined_routine};
ghost use Rattle.loader_code.specs.Told.{told as shown};
ghost use Rattle.valid_image_law.specs.Held.{hold};
ghost use Rattle.loader.specs.Found.{guard_two, handler_in, told_process, two};
ghost use Rattle.loader.specs.Parts.{AreParts, AreProcesses, AreRoutines};

use base::Cost;
use image::{RawImage, RawProcess, RawRoutine};
use image_format::SegTree;
use loader_code::{CodeCost, FaultNumbers, PartCost, RoutineCost, part_found, routine_found};
use machine_isa::Instr;
use out_of_memory::OutOfMemory;
use std::alloc::Global;
use syntax_tree::List;

/// What the code of a process comes to.
#[derive(Clone, Copy)]
pub struct ProcessCost {
    pub body: CodeCost,
    /// Nothing where there is no handler.
    pub handler: CodeCost,
    /// The address behind the last END.
    pub end: usize,
}

/// What the code of each routine and each process comes to.
#[derive(Drop)]
pub struct CodeCosts {
    /// What those that call a routine know of it.
    pub known: List<RoutineCost>,
    pub routines: List<PartCost>,
    pub processes: List<ProcessCost>,
    /// The address behind all code that was gone through.
    pub end: usize,
}

impl CodeCosts {
    /// Of no code yet.
    pub fn new(alloc: Global) -> CodeCosts
        ensures known { result.known ≡ [] }
        ensures routines { result.routines ≡ [] }
        ensures processes { result.processes ≡ [] }
        ensures end { result.end ≡ 0 }
    {
        CodeCosts {
            known: List::new(alloc),
            routines: List::new(alloc),
            processes: List::new(alloc),
            end: 0,
        }
    }
}

/// What those that call a routine know of it.
pub fn known_routine(routine: &RawRoutine, depth: u32) -> RoutineCost
    ensures { known_of result ≡ record {
      params = routine.now.params;
      results = count
          routine.now.result;
      locals = routine.now.locals;
      depth = depth;
      cost = amount
          routine.now.run routine.now.susp routine.now.waits;
    } }
{
    RoutineCost {
        params: routine.params,
        result: routine.result,
        locals: routine.locals,
        depth,
        cost: Cost {
            run: u64::from(routine.run),
            susp: u64::from(routine.susp),
            waits: u64::from(routine.waits),
        },
    }
}

/// The code of a routine, which has to start at an address.
pub fn routine_due(
    code: &[Instr],
    known: &[RoutineCost],
    routine: &RawRoutine,
    due: usize,
) -> Option<PartCost>
    requires { due ≤ length code.now }
    ensures value { told_part result ≡ hold (guard (nat_eq routine.now.start due)
        (defined_routine code.now (map known_of known.now) (routine_of routine.now))) }
    ensures ends { IfSome result (λ f. f.found.next ≡ routine.now.start +
        size routine.now.tree) }
    ensures within { IfSome result (λ f. f.found.next < length code.now) }
    ensures stay { IfSome result (λ f. f.stay ≡
        cap (stay_in (monitor_of (routine_of routine.now))
        (defined_routine code.now (map known_of known.now) (routine_of routine.now)))) }
{
    if routine.start as usize != due {
        return None;
    }
    routine_found(code, known, routine)
}

/// The code of a handler, where there is one, and the address behind its END.
fn handler_found(
    code: &[Instr],
    known: &[RoutineCost],
    tree: &Option<SegTree>,
    at: usize,
) -> Option<CodeCost>
    requires { at ≤ length code.now }
    ensures value { told result ≡ hold (handler_in code.now (map known_of known.now)
        tree.now at) }
    ensures ends { IfSome result (λ f. f.next ≡ at + handler_length tree.now) }
    ensures within { IfSome result (λ f. f.next ≤ length code.now) }
{
    match tree {
        None => Some(CodeCost::nothing(at, 0)),
        Some(tree) => {
            let found = part_found(code, known, tree, at)?;
            Some(CodeCost {
                next: found.next + 1,
                height: found.height,
                cost: found.cost,
                depth: found.depth,
            })
        }
    }
}

/// The code of a process, which has to start at an address.
pub fn process_due(
    code: &[Instr],
    known: &[RoutineCost],
    process: &RawProcess,
    due: usize,
) -> Option<ProcessCost>
    requires { due ≤ length code.now }
    ensures value { told_process result ≡ guard_two (nat_eq process.now.start due)
        (two (hold (defined_part code.now (map known_of known.now)
        process.now.body process.now.start))
        (hold (handler_in code.now (map known_of known.now)
        process.now.handler_tree (handler_start (process_of process.now))))) }
    ensures ends { IfSome result (λ f. f.end ≡ handler_start (process_of process.now) +
        handler_length process.now.handler_tree) }
    ensures within { IfSome result (λ f. f.end ≤ length code.now) }
{
    if process.start as usize != due {
        return None;
    }
    let body = part_found(code, known, &process.body, due)?;
    let handler = handler_found(code, known, &process.handler_tree, body.next + 1)?;
    Some(ProcessCost {
        body,
        handler,
        end: handler.next,
    })
}

/// The fault of code that starts at an address.
fn wrong_from(start: u32) -> FaultNumbers
    ensures { shown (Some result) ≡ Some (record { a = start; b = 0 }) }
{
    FaultNumbers {
        a: u64::from(start),
        b: 0,
    }
}

/// The first routine whose start or code is wrong. Keeps what the code of those before it comes to.
fn routines_fault(
    raw: &RawImage,
    parts: &mut CodeCosts,
) -> Result<Option<FaultNumbers>, OutOfMemory>
    requires known { parts.old.known ≡ [] }
    requires routines { parts.old.routines ≡ [] }
    requires end { parts.old.end ≡ 0 }
    ensures fault { IfOk result (λ o. shown o ≡
        first_in (routine_shape_fault (image_of raw.now)) (image_of raw.now).routines) }
    ensures kept { IfOk result (λ o. IfNone o (AreRoutines raw.now parts.new)) }
    ensures end { IfOk result (λ o. IfNone o ((parts.new.end ≡
        due_start (pieces (image_of raw.now)) (length raw.now.routines)) ×
        (parts.new.end ≤ length raw.now.code))) }
    ensures processes { parts.new.processes ≡ parts.old.processes }
{
    for routine in raw.routines.as_slice() {
        let part = match routine_due(
            raw.code.as_slice(),
            parts.known.as_slice(),
            routine,
            parts.end,
        ) {
            Some(part) => part,
            None => return Ok(Some(wrong_from(routine.start))),
        };
        parts.end = part.found.next + 1;
        parts.known.push(known_routine(routine, part.found.depth))?;
        parts.routines.push(part)?;
    }
    Ok(None)
}

/// The first process whose start or code is wrong, likewise.
fn processes_fault(
    raw: &RawImage,
    parts: &mut CodeCosts,
) -> Result<Option<FaultNumbers>, OutOfMemory>
    requires routines { AreRoutines raw.now parts.old }
    requires processes { parts.old.processes ≡ [] }
    requires due { parts.old.end ≡ due_start (pieces (image_of raw.now)) (length raw.now.routines) }
    requires within { parts.old.end ≤ length raw.now.code }
    ensures fault { IfOk result (λ o. shown o ≡
        first_in (process_shape_fault (image_of raw.now)) (image_of raw.now).processes) }
    ensures kept { IfOk result (λ o. IfNone o (AreParts raw.now parts.new)) }
    ensures end { IfOk result (λ o. IfNone o (parts.new.end ≡
        due_start (pieces (image_of raw.now)) (length (pieces (image_of raw.now))))) }
{
    for process in raw.processes.as_slice() {
        let found = match process_due(
            raw.code.as_slice(),
            parts.known.as_slice(),
            process,
            parts.end,
        ) {
            Some(found) => found,
            None => return Ok(Some(wrong_from(process.start))),
        };
        parts.end = found.end;
        parts.processes.push(found)?;
    }
    Ok(None)
}

/// The first routine or process that does not start where the one before it ends, or whose code is
/// not of its tree, or breaks a rule of heights; or the first address that none of them covers.
/// Where there is none, the parts are kept.
pub fn shape_fault(
    raw: &RawImage,
    parts: &mut CodeCosts,
) -> Result<Option<FaultNumbers>, OutOfMemory>
    requires known { parts.old.known ≡ [] }
    requires routines { parts.old.routines ≡ [] }
    requires processes { parts.old.processes ≡ [] }
    requires end { parts.old.end ≡ 0 }
    ensures fault { IfOk result (λ o. shown o ≡ defined_fault (image_of raw.now)) }
    ensures kept { IfOk result (λ o. IfNone o (AreParts raw.now parts.new)) }
{
    if let Some(fault) = routines_fault(raw, parts)? {
        return Ok(Some(fault));
    }
    if let Some(fault) = processes_fault(raw, parts)? {
        return Ok(Some(fault));
    }
    if parts.end != raw.code.len() {
        return Ok(Some(FaultNumbers {
            a: parts.end as u64,
            b: 0,
        }));
    }
    Ok(None)
}
