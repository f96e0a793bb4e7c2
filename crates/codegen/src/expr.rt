//! The code of expressions.

ghost use Rattle.std.specs.Prelude.{◌≡◌, OnOk, pos};
ghost use Rattle.std.specs.Option.{option_copied};
ghost use Rattle.syntax_tree.specs.Placed.{op_of, placed_scalar, plain_scalar};
ghost use Rattle.base.specs.Words.{of_bool};
ghost use Rattle.code_spec.specs.Code.{constant_named, op_instr};
ghost use Rattle.code_spec.specs.Layout.{spot_of};
ghost use Rattle.codegen_spec.specs.Told.{fit as fitting, inside, range_told, told_spot, value_told};
ghost use Rattle.codegen_spec.specs.Made.{call_out, called as called_of, load_at_from, load_at_told, load_from, load_told, range_out};
ghost use Rattle.codegen.specs.Of.{args_of, expr_of, row_of};

use crate::code_builder::CodeBuilder;
use crate::errors::tri;
use codegen_branches::fit;
use codegen_spec::{Area, Callee, Lookup, Loop, ValueRange, VarLocation, VarShape};
use image_format::Seg;
use machine_isa::Instr;
use out_of_memory::OutOfMemory;
use syntax_tree::{Expr, Op, Scalar};

fn load(spot: &VarLocation) -> Instr
    ensures { result ≡ load_from spot.now.area spot.now.word }
{
    let word = spot.word;
    match spot.area {
        Area::Frame => Instr::LoadLocal { word },
        Area::Process => Instr::LoadOwn { word },
        Area::Monitor => Instr::LoadMon { word },
    }
}

fn load_at(spot: &VarLocation) -> Instr
    ensures { result ≡ load_at_from spot.now.area spot.now.word spot.now.shape }
{
    let word = spot.word;
    match spot.shape {
        VarShape::Single => Instr::Push { value: 0 },
        VarShape::Array { low, len } => match spot.area {
            Area::Frame => Instr::LoadLocalAt { word, low, len },
            Area::Process => Instr::LoadOwnAt { word, low, len },
            Area::Monitor => Instr::LoadMonAt { word, low, len },
        },
    }
}

fn instr_of(op: Op) -> Instr
    ensures { result ≡ op_instr (op_of op) }
{
    match op {
        Op::Or => Instr::Or,
        Op::And => Instr::And,
        Op::Equal => Instr::Eq,
        Op::Unequal => Instr::Ne,
        Op::Less => Instr::Lt,
        Op::LessEqual => Instr::Le,
        Op::Greater => Instr::Gt,
        Op::GreaterEqual => Instr::Ge,
        Op::Add => Instr::Add,
        Op::Sub => Instr::Sub,
        Op::Mul => Instr::Mul,
        Op::Div => Instr::Div,
        Op::Mod => Instr::Mod,
    }
}

/// The instruction that loads what a name means.
fn name<L: Lookup>(names: &L, loops: &[Loop], name: &syntax_tree::Name) -> Instr
    ensures { let g = L.program names.now in let c = inside loops.now (L.scope names.now) in
        result ≡ load_told (told_spot (spot_of g c name.now))
        (fitting (value_told (constant_named g name.now))) }
{
    match names.variable(loops, name) {
        Some(spot) => load(&spot),
        None => Instr::Push {
            value: names.constant(name),
        },
    }
}

/// The instruction that loads an element, whose index is on the stack.
fn element<L: Lookup>(names: &L, loops: &[Loop], name: &syntax_tree::Name) -> Instr
    ensures { let g = L.program names.now in let c = inside loops.now (L.scope names.now) in
        result ≡ load_at_told (told_spot (spot_of g c name.now)) }
{
    match names.variable(loops, name) {
        Some(spot) => load_at(&spot),
        None => Instr::Push { value: 0 },
    }
}

/// The range of a type, if it has one.
pub fn range_of<L: Lookup>(names: &L, kind: &Scalar) -> Option<ValueRange>
    ensures { result ≡ range_told (L.program names.now) (plain_scalar (placed_scalar kind.now)) }
{
    match kind {
        Scalar::Int | Scalar::Boolean => None,
        Scalar::Subrange { low, high } => Some(ValueRange {
            low: names.value(low),
            high: names.value(high),
        }),
    }
}

impl CodeBuilder {
    /// The check of a range, if there is one.
    pub fn range(&mut self, range: &Option<ValueRange>) -> Result<(), OutOfMemory>
        ensures { OnOk result (self.new ≡ range_out range.now self.old) }
    {
        match range {
            Some(range) => self.push(Instr::Range {
                low: range.low,
                high: range.high,
            }),
            None => Ok(()),
        }
    }

    /// A call of a routine, whose arguments are on the stack.
    fn call(&mut self, number: usize) -> Result<(), OutOfMemory>
        ensures { OnOk result (self.new ≡ called_of number self.old) }
    {
        let before = tri!(self.take());
        tri!(self.push(Instr::Call {
            routine: fit(number),
        }));
        self.join(before, Seg::Call(u16::try_from(number).unwrap_or(u16::MAX)))
    }

    /// The arguments of a call, each with the check of its parameter's range.
    #[cycle(expr)]
    fn args<L: Lookup>(
        &mut self,
        names: &L,
        loops: &[Loop],
        args: &[Expr],
        ranges: &[Option<ValueRange>],
    ) -> Result<(), OutOfMemory>
        ensures { let g = L.program names.now in let c = inside loops.now (L.scope names.now) in
            OnOk result (self.new ≡ args_of g c args.now ranges.now self.old) }
    {
        for (arg, range) in args.iter().zip(ranges) {
            tri!(self.expr(names, loops, arg));
            tri!(self.range(range));
        }
        Ok(())
    }

    /// A call with its arguments; nothing where it names no routine.
    #[cycle(expr)]
    pub fn called<L: Lookup>(
        &mut self,
        names: &L,
        loops: &[Loop],
        callee: Option<&Callee>,
        args: &[Expr],
    ) -> Result<(), OutOfMemory>
        ensures { let g = L.program names.now in let c = inside loops.now (L.scope names.now) in
            OnOk result (self.new ≡ call_out (option_copied callee.entry) (λ rs. args_of g c
            args.now rs self.old) self.old) }
    {
        match callee {
            None => Ok(()),
            Some(callee) => {
                tri!(self.args(names, loops, args, callee.ranges.as_slice()));
                self.call(callee.number)
            }
        }
    }

    /// The code of operators, each with its right operand.
    #[cycle(expr)]
    fn operands<L: Lookup>(
        &mut self,
        names: &L,
        loops: &[Loop],
        operands: &[(Op, Expr)],
    ) -> Result<(), OutOfMemory>
        ensures { let g = L.program names.now in let c = inside loops.now (L.scope names.now) in
            OnOk result (self.new ≡ row_of g c operands.now self.old) }
    {
        for operand in operands {
            tri!(self.expr(names, loops, &operand.1));
            tri!(self.push(instr_of(operand.0)));
        }
        Ok(())
    }

    /// The code of an expression, whose value comes on the stack.
    #[cycle(expr)]
    pub fn expr<L: Lookup>(
        &mut self,
        names: &L,
        loops: &[Loop],
        expr: &Expr,
    ) -> Result<(), OutOfMemory>
        ensures { let g = L.program names.now in let c = inside loops.now (L.scope names.now) in
            OnOk result (self.new ≡ expr_of g c expr.now self.old) }
    {
        match expr {
            Expr::Literal { value, .. } => self.push(Instr::Push {
                value: fit(*value as usize),
            }),
            Expr::True { .. } => self.push(Instr::Push { value: 1 }),
            Expr::False { .. } => self.push(Instr::Push { value: 0 }),
            Expr::Variable { name, .. } => self.push(crate::expr::name(names, loops, name)),
            Expr::Element { name, index, .. } => {
                tri!(self.expr(names, loops, index));
                self.push(element(names, loops, name))
            }
            Expr::Call { name, args, .. } => {
                self.called(names, loops, names.routine(name), args.as_slice())
            }
            Expr::Minus { operand, .. } => {
                tri!(self.expr(names, loops, operand));
                self.push(Instr::Neg)
            }
            Expr::Not { operand, .. } => {
                tri!(self.expr(names, loops, operand));
                self.push(Instr::Not)
            }
            Expr::Paren { inner, .. } => self.expr(names, loops, inner),
            Expr::Chain { first, rest } => {
                tri!(self.expr(names, loops, first));
                self.operands(names, loops, rest.as_slice())
            }
        }
    }
}
