//! The names in constants, types and expressions.

ghost use Rattle.std.specs.Prelude.{◌≡◌, OnOk, List};
ghost use Rattle.syntax_tree.specs.Placed.{placed_constant, placed_scalar, placed_kind, placed_expr, placed_exprs, placed_operands, placed_ref};
ghost use Rattle.static_names.specs.Occurrences.{Occurrence, constant_names, scalar_names, kind_names, expr_names, exprs_names, operands_names, ref_names};
ghost use Rattle.static_names.specs.Findings.{noted};
ghost use Rattle.static_names.specs.Seen.{site};

use crate::errors::tri;
use crate::findings::Findings;
use crate::kind::NameUse;
use crate::scope::Local;
use crate::scope_chain::ScopeChain;
use out_of_memory::OutOfMemory;
use syntax_tree::{Constant, Expr, Op, Ref, Scalar, Type, Value};

pub fn constant<'a>(
    findings: &mut Findings,
    around: &ScopeChain<'_, 'a>,
    loops: &[Local<'a>],
    constant: &Constant,
) -> Result<(), OutOfMemory>
    ensures { OnOk result ((more : List Occurrence) → noted findings.new more ≡
        noted findings.old (constant_names (site around.now loops.now)
        (placed_constant constant.now) more)) }
{
    if let Value::Name(name) = &constant.value {
        return around.use_name(
            findings,
            loops,
            name,
            constant.value_place,
            NameUse::Constant,
        );
    }
    Ok(())
}

pub fn scalar<'a>(
    findings: &mut Findings,
    around: &ScopeChain<'_, 'a>,
    loops: &[Local<'a>],
    kind: &Scalar,
) -> Result<(), OutOfMemory>
    ensures { OnOk result ((more : List Occurrence) → noted findings.new more ≡
        noted findings.old (scalar_names (site around.now loops.now)
        (placed_scalar kind.now) more)) }
{
    if let Scalar::Subrange { low, high } = kind {
        tri!(constant(findings, around, loops, low));
        return constant(findings, around, loops, high);
    }
    Ok(())
}

pub fn kind<'a>(
    findings: &mut Findings,
    around: &ScopeChain<'_, 'a>,
    loops: &[Local<'a>],
    kind: &Type,
) -> Result<(), OutOfMemory>
    ensures { OnOk result ((more : List Occurrence) → noted findings.new more ≡
        noted findings.old (kind_names (site around.now loops.now) (placed_kind kind.now) more)) }
{
    match kind {
        Type::Scalar(kind) => scalar(findings, around, loops, kind),
        Type::Array { low, high, element } => {
            tri!(constant(findings, around, loops, low));
            tri!(constant(findings, around, loops, high));
            scalar(findings, around, loops, element)
        }
    }
}

#[cycle(expr)]
pub fn expr<'a>(
    findings: &mut Findings,
    around: &ScopeChain<'_, 'a>,
    loops: &[Local<'a>],
    e: &Expr,
) -> Result<(), OutOfMemory>
    ensures { OnOk result ((more : List Occurrence) → noted findings.new more ≡
        noted findings.old (expr_names (site around.now loops.now) (placed_expr e.now) more)) }
{
    match e {
        Expr::Literal { .. } | Expr::True { .. } | Expr::False { .. } => Ok(()),
        Expr::Variable { place, name } => around.use_name(
            findings,
            loops,
            name,
            *place,
            NameUse::Value,
        ),
        Expr::Element { place, name, index } => {
            tri!(around.use_name(findings, loops, name, *place, NameUse::Value));
            expr(findings, around, loops, index)
        }
        Expr::Call { place, name, args } => {
            tri!(around.use_name(findings, loops, name, *place, NameUse::Routine));
            exprs(findings, around, loops, args.as_slice())
        }
        Expr::Minus { operand, .. } | Expr::Not { operand, .. } => expr(
            findings, around, loops, operand,
        ),
        Expr::Paren { inner, .. } => expr(findings, around, loops, inner),
        Expr::Chain { first, rest } => {
            tri!(expr(findings, around, loops, first));
            operands(findings, around, loops, rest.as_slice())
        }
    }
}

/// The right operands of a row of operators.
#[cycle(expr)]
fn operands<'a>(
    findings: &mut Findings,
    around: &ScopeChain<'_, 'a>,
    loops: &[Local<'a>],
    list: &[(Op, Expr)],
) -> Result<(), OutOfMemory>
    ensures { OnOk result ((more : List Occurrence) → noted findings.new more ≡
        noted findings.old (operands_names (site around.now loops.now)
        (placed_operands list.now) more)) }
{
    for operand in list {
        tri!(expr(findings, around, loops, &operand.1));
    }
    Ok(())
}

#[cycle(expr)]
pub fn exprs<'a>(
    findings: &mut Findings,
    around: &ScopeChain<'_, 'a>,
    loops: &[Local<'a>],
    list: &[Expr],
) -> Result<(), OutOfMemory>
    ensures { OnOk result ((more : List Occurrence) → noted findings.new more ≡
        noted findings.old (exprs_names (site around.now loops.now) (placed_exprs list.now) more)) }
{
    for e in list {
        tri!(expr(findings, around, loops, e));
    }
    Ok(())
}

/// What is assigned to.
pub fn target<'a>(
    findings: &mut Findings,
    around: &ScopeChain<'_, 'a>,
    loops: &[Local<'a>],
    target: &Ref,
) -> Result<(), OutOfMemory>
    ensures { OnOk result ((more : List Occurrence) → noted findings.new more ≡
        noted findings.old (ref_names (site around.now loops.now) (placed_ref target.now) more)) }
{
    tri!(around.use_name(findings, loops, &target.name, target.place, NameUse::Target));
    match &target.index {
        Some(index) => expr(findings, around, loops, index),
        None => Ok(()),
    }
}
