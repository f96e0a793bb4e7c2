//! Arguments, bound one after the other to the parameters of a routine.

ghost use Rattle.std.specs.Prelude.{◌≡◌, ◌≤◌, IfOk, ℕ};
ghost use Rattle.syntax_tree.specs.Placed.{placed, plain};
ghost use Rattle.source_semantics.specs.Run as run_of;
ghost use Rattle.replay_state.specs.View.{vars_of};
ghost use Rattle.replay_calls.specs.declared.lookup.EvalContext as code_scope;
ghost use Rattle.replay_calls.specs.Reach.{site_of};
ghost use Rattle.replay_calls.specs.Seen.{answer_of};
ghost use Rattle.replay_next.specs.Remains.{binding_bound, bound_of, exprs_of, in_front_all, params_of};
ghost use Rattle.replay_next.specs.Weights.{Costs, bound_weight, exprs_weight};

use crate::remains::{Binding, BoundSoFar};
use out_of_memory::OutOfMemory;
use replay_calls::{Answer, ArgumentResult, EvalContext, param_variable};
use replay_state::Slot;
use syntax_tree::{Expr, Param};

/// The next argument, where there is one for a parameter.
pub fn next_argument<'a>(
    own: Vec<Slot<'a>>,
    params: &'a [Param],
    args: &'a [Expr],
) -> BoundSoFar<'a>
    ensures bound { (c : run_of.Site) (m : run_of.Memory) → bound_of c m result ≡
        in_front_all (vars_of own.entry.items)
        (run_of.arguments c m (exprs_of args.now) (params_of params.now)) }
    ensures falls { (k : Costs) → bound_weight k result ≤ exprs_weight k (exprs_of args.now) }
{
    match args.split_first() {
        None => BoundSoFar::All(own),
        Some((expr, args)) => match params.split_first() {
            None => BoundSoFar::All(own),
            Some((param, params)) => BoundSoFar::Next(
                expr,
                Binding {
                    own,
                    param,
                    params,
                    args,
                },
            ),
        },
    }
}

/// The argument that was awaited has this answer.
pub fn bind<'a>(
    scope: &EvalContext<'a>,
    binding: Binding<'a>,
    answer: Answer,
) -> Result<BoundSoFar<'a>, OutOfMemory>
    ensures bound { IfOk result (λ at. (c : run_of.Site) (m : run_of.Memory) →
        c.program ≡ plain (placed scope.now.declarations.now) →
        bound_of c m at ≡ binding_bound c m binding.entry (answer_of answer)) }
    ensures falls { IfOk result (λ at. (k : Costs) →
        bound_weight k at ≤ exprs_weight k (exprs_of binding.entry.args.now)) }
{
    let Binding {
        mut own,
        param,
        params,
        args,
    } = binding;
    match param_variable(scope.declarations, param, answer) {
        ArgumentResult::Raised(number) => Ok(BoundSoFar::Raised(number)),
        ArgumentResult::To(slot) => {
            own.push(slot)?;
            Ok(next_argument(own, params, args))
        }
    }
}
