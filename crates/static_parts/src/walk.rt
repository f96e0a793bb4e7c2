//! The walk over the parts of a program.

ghost use Rattle.std.specs.Prelude.{◌≡◌, List, [], map, option_map};
ghost use Rattle.syntax_tree.specs.Placed.{placed, placed_decl, placed_process, placed_routine, placed_stmt, placed_stmts};
ghost use Rattle.static_declarations.specs.declared.home.StmtContext.TheVariants as home_is;
ghost use Rattle.static_declarations.specs.Parts.{Part, answer_parts, decl_parts, decls_parts, handler_parts, home_of as home_of_routine, looped as looped_at, outside_loops as standing_in, parts, routine_parts, routines_parts, stmt_parts, stmts_parts};
ghost use Rattle.static_parts.specs.Visits.{come_to, part_of};

use crate::part::{PartVisitor, ProgramPart};
use static_declarations::{StmtContext, Where};
use syntax_tree::{Declaration, Process, Program, Routine, RoutineKind, Stmt};

/// The same place, in a loop.
fn looped(here: Where) -> Where
    ensures { result ≡ looped_at here }
{
    Where {
        home: here.home,
        in_loop: true,
    }
}

/// Visits each statement of a list and those in it; the part at which that ends.
#[cycle(stmt)]
fn stmts<'p, V: PartVisitor>(
    visitor: &mut V,
    here: Where,
    list: &'p [Stmt],
) -> Option<ProgramPart<'p>>
    ensures { (more : List Part) → V.found visitor.old (stmts_parts here (placed_stmts list.now) more) ≡
        come_to (V.ended visitor.new) (option_map part_of result) (V.found visitor.new more) }
{
    for s in list {
        if let Some(part) = stmt(visitor, here, s) {
            return Some(part);
        }
    }
    None
}

/// Visits a statement and those in it; the part at which that ends.
#[cycle(stmt)]
fn stmt<'p, V: PartVisitor>(visitor: &mut V, here: Where, s: &'p Stmt) -> Option<ProgramPart<'p>>
    ensures { (more : List Part) → V.found visitor.old (stmt_parts here (placed_stmt s.now) more) ≡
        come_to (V.ended visitor.new) (option_map part_of result) (V.found visitor.new more) }
{
    let part = ProgramPart::Statement { here, s };
    if visitor.visit(part) {
        return Some(part);
    }
    match s {
        Stmt::If {
            first,
            second: None,
            ..
        } => stmts(visitor, here, first.as_slice()),
        Stmt::If {
            first,
            second: Some(second),
            ..
        } => match stmts(visitor, here, first.as_slice()) {
            None => stmts(visitor, here, second.as_slice()),
            end => end,
        },
        Stmt::For { body, .. } => stmts(visitor, looped(here), body.as_slice()),
        Stmt::Assign { .. }
        | Stmt::AssignEntry { .. }
        | Stmt::AssignEmpty { .. }
        | Stmt::Call { .. }
        | Stmt::CallEntry { .. }
        | Stmt::ExitWhen { .. }
        | Stmt::Get { .. }
        | Stmt::Put { .. }
        | Stmt::Wait { .. }
        | Stmt::Signal { .. }
        | Stmt::Broadcast { .. }
        | Stmt::Except { .. }
        | Stmt::Assert { .. } => None,
    }
}

/// What the statements of a routine stand in. A function that is no entry is known by the place of
/// its name.
fn home_of(is_entry: bool, routine: &Routine) -> StmtContext
    ensures { let r = placed_routine routine.now in result ≡
        home_of_routine is_entry r.kind r.place }
{
    match (is_entry, routine.kind) {
        (true, _) => StmtContext::Entry,
        (false, RoutineKind::Procedure) => StmtContext::Free,
        (false, RoutineKind::Function) => StmtContext::Function(routine.place),
    }
}

fn outside_loops(home: StmtContext) -> Where
    ensures { result ≡ standing_in home }
{
    Where {
        home,
        in_loop: false,
    }
}

/// Visits the result of a routine, if it is a function.
fn answer<'p, V: PartVisitor>(visitor: &mut V, routine: &'p Routine) -> Option<ProgramPart<'p>>
    ensures { let r = placed_routine routine.now in (more : List Part) →
        V.found visitor.old (answer_parts r.place r.result r.value more) ≡
        come_to (V.ended visitor.new) (option_map part_of result) (V.found visitor.new more) }
{
    let part = ProgramPart::Answer {
        name: routine.place,
        kind: routine.result.as_ref()?,
        value: routine.value.as_ref()?,
    };
    visitor.visit(part).then_some(part)
}

/// Visits the statements of a routine, and its result where it is a function.
fn routine<'p, V: PartVisitor>(
    visitor: &mut V,
    is_entry: bool,
    routine: &'p Routine,
) -> Option<ProgramPart<'p>>
    ensures { (more : List Part) → V.found visitor.old (routine_parts is_entry (placed_routine routine.now) more) ≡
        come_to (V.ended visitor.new) (option_map part_of result) (V.found visitor.new more) }
{
    let here = outside_loops(home_of(is_entry, routine));
    match stmts(visitor, here, routine.body.as_slice()) {
        None => answer(visitor, routine),
        end => end,
    }
}

fn routines<'p, V: PartVisitor>(
    visitor: &mut V,
    is_entry: bool,
    list: &'p [Routine],
) -> Option<ProgramPart<'p>>
    ensures { (more : List Part) → V.found visitor.old (routines_parts is_entry (map placed_routine list.now) more) ≡
        come_to (V.ended visitor.new) (option_map part_of result) (V.found visitor.new more) }
{
    for one in list {
        if let Some(part) = routine(visitor, is_entry, one) {
            return Some(part);
        }
    }
    None
}

/// Visits the statements of a process: its body, and its handler where it has one.
fn process_stmts<'p, V: PartVisitor>(
    visitor: &mut V,
    process: &'p Process,
) -> Option<ProgramPart<'p>>
    ensures { let p = placed_process process.now in (more : List Part) →
        V.found visitor.old (stmts_parts (standing_in home_is.Free) p.body (handler_parts p.handler more)) ≡
        come_to (V.ended visitor.new) (option_map part_of result) (V.found visitor.new more) }
{
    let here = outside_loops(StmtContext::Free);
    match (
        stmts(visitor, here, process.body.as_slice()),
        &process.handler,
    ) {
        (None, Some(handler)) => stmts(visitor, here, handler.body.as_slice()),
        (end, _) => end,
    }
}

fn decl<'p, V: PartVisitor>(visitor: &mut V, decl: &'p Declaration) -> Option<ProgramPart<'p>>
    ensures { (more : List Part) → V.found visitor.old (decl_parts (placed_decl decl.now) more) ≡
        come_to (V.ended visitor.new) (option_map part_of result) (V.found visitor.new more) }
{
    match decl {
        Declaration::Const { .. } | Declaration::Device { .. } | Declaration::Event { .. } => None,
        Declaration::Routine(one) => routine(visitor, false, one),
        Declaration::Monitor(monitor) => routines(visitor, true, monitor.entries.as_slice()),
        Declaration::Process(process) => {
            match routines(visitor, false, process.routines.as_slice()) {
                None => process_stmts(visitor, process),
                end => end,
            }
        }
    }
}

fn decls<'p, V: PartVisitor>(visitor: &mut V, list: &'p [Declaration]) -> Option<ProgramPart<'p>>
    ensures { (more : List Part) → V.found visitor.old (decls_parts (map placed_decl list.now) more) ≡
        come_to (V.ended visitor.new) (option_map part_of result) (V.found visitor.new more) }
{
    for one in list {
        if let Some(part) = decl(visitor, one) {
            return Some(part);
        }
    }
    None
}

/// Visits the parts of a program in the order of the text; the part at which that ends.
pub fn visit_parts<'p, V: PartVisitor>(
    visitor: &mut V,
    program: &'p Program,
) -> Option<ProgramPart<'p>>
    ensures { V.found visitor.old (parts (placed program.now)) ≡
        come_to (V.ended visitor.new) (option_map part_of result) (V.found visitor.new []) }
{
    decls(visitor, program.decls.as_slice())
}
