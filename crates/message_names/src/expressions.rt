//! The names in constants, types and expressions.

ghost use Rattle.std.specs.Prelude.{◌≡◌, ◌++◌, OnOk};
ghost use Rattle.syntax_tree.specs.Placed.{placed_constant, placed_expr, placed_exprs, placed_kind, placed_operands, placed_ref, placed_scalar};
ghost use Rattle.message_names.specs.Mentions.{bounds_mentions, constant_mentions, expr_mentions, exprs_mentions, kind_mentions, operands_mentions, ref_mentions, scalar_mentions};

use crate::errors::tri;
use crate::mentions::Mentions;
use crate::role::Wanted;
use out_of_memory::OutOfMemory;
use syntax_tree::{Constant, Expr, Op, Ref, Scalar, Type, Value};

/// The name of a constant.
pub(crate) fn constant<'a>(
    mentions: &mut Mentions<'a>,
    constant: &'a Constant,
) -> Result<(), OutOfMemory>
    ensures { OnOk result (mentions.new ≡ mentions.old ++
        constant_mentions (placed_constant constant.now)) }
{
    match &constant.value {
        Value::Name(name) => mentions.uses(Wanted::Constant, name, constant.value_place),
        Value::Literal(_) => Ok(()),
    }
}

/// Two constants.
pub(crate) fn bounds<'a>(
    mentions: &mut Mentions<'a>,
    low: &'a Constant,
    high: &'a Constant,
) -> Result<(), OutOfMemory>
    ensures { OnOk result (mentions.new ≡ mentions.old ++
        bounds_mentions (placed_constant low.now) (placed_constant high.now)) }
{
    tri!(constant(mentions, low));
    constant(mentions, high)
}

/// The type of a word.
pub(crate) fn scalar<'a>(mentions: &mut Mentions<'a>, kind: &'a Scalar) -> Result<(), OutOfMemory>
    ensures { OnOk result (mentions.new ≡ mentions.old ++
        scalar_mentions (placed_scalar kind.now)) }
{
    match kind {
        Scalar::Int | Scalar::Boolean => Ok(()),
        Scalar::Subrange { low, high } => bounds(mentions, low, high),
    }
}

/// The type of a variable.
pub(crate) fn kind<'a>(mentions: &mut Mentions<'a>, kind: &'a Type) -> Result<(), OutOfMemory>
    ensures { OnOk result (mentions.new ≡ mentions.old ++ kind_mentions (placed_kind kind.now)) }
{
    match kind {
        Type::Scalar(kind) => scalar(mentions, kind),
        Type::Array { low, high, element } => {
            tri!(bounds(mentions, low, high));
            scalar(mentions, element)
        }
    }
}

/// An expression.
#[cycle(expr)]
pub(crate) fn expr<'a>(mentions: &mut Mentions<'a>, e: &'a Expr) -> Result<(), OutOfMemory>
    ensures { OnOk result (mentions.new ≡ mentions.old ++ expr_mentions (placed_expr e.now)) }
{
    match e {
        Expr::Literal { .. } | Expr::True { .. } | Expr::False { .. } => Ok(()),
        Expr::Variable { place, name } => mentions.uses(Wanted::Value, name, *place),
        Expr::Element { place, name, index } => {
            tri!(mentions.uses(Wanted::Value, name, *place));
            expr(mentions, index)
        }
        Expr::Call { place, name, args } => {
            tri!(mentions.uses(Wanted::Routine, name, *place));
            exprs(mentions, args.as_slice())
        }
        Expr::Minus { operand, .. } | Expr::Not { operand, .. } => expr(mentions, operand),
        Expr::Paren { inner, .. } => expr(mentions, inner),
        Expr::Chain { first, rest } => {
            tri!(expr(mentions, first));
            operands(mentions, rest.as_slice())
        }
    }
}

/// The right operands of a row of operators.
#[cycle(expr)]
fn operands<'a>(mentions: &mut Mentions<'a>, list: &'a [(Op, Expr)]) -> Result<(), OutOfMemory>
    ensures { OnOk result (mentions.new ≡ mentions.old ++
        operands_mentions (placed_operands list.now)) }
{
    for operand in list {
        tri!(expr(mentions, &operand.1));
    }
    Ok(())
}

/// Expressions.
#[cycle(expr)]
pub(crate) fn exprs<'a>(mentions: &mut Mentions<'a>, list: &'a [Expr]) -> Result<(), OutOfMemory>
    ensures { OnOk result (mentions.new ≡ mentions.old ++ exprs_mentions (placed_exprs list.now)) }
{
    for e in list {
        tri!(expr(mentions, e));
    }
    Ok(())
}

/// What is assigned to.
pub(crate) fn target<'a>(mentions: &mut Mentions<'a>, target: &'a Ref) -> Result<(), OutOfMemory>
    ensures { OnOk result (mentions.new ≡ mentions.old ++ ref_mentions (placed_ref target.now)) }
{
    tri!(mentions.uses(Wanted::Target, &target.name, target.place));
    match &target.index {
        Some(index) => expr(mentions, index),
        None => Ok(()),
    }
}
