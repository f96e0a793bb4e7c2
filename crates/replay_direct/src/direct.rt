//! What a process does next, where no run is needed to know it.

ghost use Rattle.std.specs.Prelude.{◌≡◌, [], IfSome, None, true};
ghost use Rattle.base.specs.Words.{word};
ghost use Rattle.syntax_tree.specs.Placed.{placed, placed_expr, placed_process, placed_stmt, plain, plain_expr, plain_process, plain_stmt};
ghost use Rattle.source_semantics.specs.Names.{device_number as number_of_device, routine_count};
ghost use Rattle.source_semantics.specs.Next.{next_from};
ghost use Rattle.source_semantics.specs.Run as run_of;
ghost use Rattle.source_semantics.specs.Store.{Vars};
ghost use Rattle.replay_state.specs.View.{calls_of, job_of, vars_of};
ghost use Rattle.replay_state.specs.declared.call.CallOwner.TheVariants as home_is;
ghost use Rattle.replay_calls.specs.Reach.{site_of};
ghost use Rattle.replay_direct.specs.Direct.{direct_next, memory_beside};

use replay_calls::{Answer, EvalContext, Memory, device_number, lent, name_value};
use replay_state::{Call, CallOwner, Item, ProcessState, Slot};
use syntax_tree::{Expr, Name, Stmt};

/// What a process does next, where that is known without a run.
#[derive(Clone, Copy)]
pub enum DirectAction<'a> {
    /// A value goes to the device. Of the first item of the innermost call these statements remain.
    Puts {
        dev: usize,
        value: i64,
        others: &'a [Stmt],
    },
    /// The last call is over.
    Ends,
}

/// A value that goes to a device.
#[derive(Clone, Copy)]
struct DirectPut {
    dev: usize,
    value: i64,
}

/// What a name is worth in the text of a process, beside no variables of the call's own.
fn named_value<'a>(
    scope: &EvalContext<'a>,
    depth: usize,
    process: &[Slot<'a>],
    name: &Name,
) -> Option<i64>
    ensures { let c = site_of scope.now home_is.Process depth in
        IfSome result (λ value. (monitor : Vars) →
        run_of.value_of c (memory_beside (vars_of process.now) monitor) name.now ≡ word value) }
{
    let memory = Memory {
        own: Vec::new(scope.alloc),
        process: lent(process),
        monitor: lent(&[]),
    };
    match name_value(scope, CallOwner::Process, depth, &memory, name) {
        Answer::Raised(_) => None,
        Answer::Word(value) => Some(value),
    }
}

/// The value of a literal, or of a name in the text of a process.
fn direct_value<'a>(
    scope: &EvalContext<'a>,
    depth: usize,
    process: &[Slot<'a>],
    expr: &Expr,
) -> Option<i64>
    ensures { let c = site_of scope.now home_is.Process depth in
        IfSome result (λ value. (monitor : Vars) →
        run_of.value c (memory_beside (vars_of process.now) monitor)
        (plain_expr (placed_expr expr.now)) ≡ word value) }
{
    match expr {
        Expr::Literal { value, .. } => Some(i64::from(*value)),
        Expr::Variable { name, .. } => named_value(scope, depth, process, name),
        _ => None,
    }
}

/// The number of the device of that name.
fn device_here(scope: &EvalContext<'_>, device: &Name) -> usize
    ensures { result ≡ number_of_device (plain (placed scope.now.declarations.now)) device.now }
{
    device_number(device, scope.declarations.program().decls.as_slice())
}

/// The put that a statement of a process is, in a call without variables of its own.
fn direct_put<'a>(
    scope: &EvalContext<'a>,
    depth: usize,
    process: &[Slot<'a>],
    stmt: &Stmt,
) -> Option<DirectPut>
    ensures { let c = site_of scope.now home_is.Process depth in
        IfSome result (λ put. (monitor : Vars) →
        run_of.run c (memory_beside (vars_of process.now) monitor)
        (plain_stmt (placed_stmt stmt.now)) ≡ run_of.stops (run_of.puts put.dev put.value) [] []
        (memory_beside (vars_of process.now) monitor)) }
{
    let Stmt::Put { device, value, .. } = stmt else {
        return None;
    };
    let value = direct_value(scope, depth, process, value)?;
    Some(DirectPut {
        dev: device_here(scope, device),
        value,
    })
}

/// Whether a call is in the text of a process, and has no variables of its own.
fn is_plain(call: &Call<'_>) -> bool
    ensures home { result ≡ true → call.now.home ≡ home_is.Process }
    ensures own { result ≡ true → call.now.own.items ≡ [] }
{
    match call.home {
        CallOwner::Process => call.own.is_empty(),
        CallOwner::Program | CallOwner::Monitor(_) => false,
    }
}

/// The next action from calls in progress, where it is known without a run.
fn direct_from<'a>(
    scope: &EvalContext<'a>,
    depth: usize,
    calls: &[Call<'a>],
    process: &[Slot<'a>],
) -> Option<DirectAction<'a>>
    requires { depth ≡ routine_count (plain (placed scope.now.declarations.now)) }
    ensures { let g = plain (placed scope.now.declarations.now) in
        let p = plain_process (placed_process scope.now.process.now) in
        IfSome result (λ direct. (monitor : Vars) →
        direct_next direct (calls_of calls.now) (vars_of process.now) monitor ≡
        next_from g p (calls_of calls.now) None (vars_of process.now) monitor) }
{
    let (call, outer) = calls.split_first()?;
    let (first, later) = call.rest.as_slice().split_first()?;
    let Item::DoAll(stmts) = *first else {
        return None;
    };
    match stmts.split_first() {
        None => {
            if later.is_empty() && outer.is_empty() {
                Some(DirectAction::Ends)
            } else {
                None
            }
        }
        Some((stmt, others)) => {
            if !is_plain(call) {
                return None;
            }
            let DirectPut { dev, value } = direct_put(scope, depth, process, stmt)?;
            Some(DirectAction::Puts { dev, value, others })
        }
    }
}

/// The next action of a process, of which this is the job, where it is known without a run.
pub fn direct_action<'a>(
    scope: &EvalContext<'a>,
    depth: usize,
    job: &ProcessState<'a>,
) -> Option<DirectAction<'a>>
    requires { depth ≡ routine_count (plain (placed scope.now.declarations.now)) }
    ensures { let g = plain (placed scope.now.declarations.now) in
        let p = plain_process (placed_process scope.now.process.now) in
        let j = job_of job.now in IfSome result (λ direct. (monitor : Vars) →
        direct_next direct j.calls j.vars monitor ≡ next_from g p j.calls None j.vars monitor) }
{
    direct_from(scope, depth, job.calls.as_slice(), job.vars.as_slice())
}
