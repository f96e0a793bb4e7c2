//! Printing constants, expressions and references.

ghost use Rattle.std.specs.Prelude.{◌≡◌, [], ◌∷◌, ◌++◌, OnOk};
ghost use Rattle.syntax_tree.specs.Placed.{placed_constant, placed_expr, placed_exprs, placed_operands, placed_ref, op_of};
ghost use Rattle.syntax.specs.ExprGrammar.{op_word};
ghost use Rattle.syntax.specs.Words as w;
ghost use Rattle.syntax_printer.specs.Pages.{put, puts};
ghost use Rattle.syntax_printer.specs.Canonical.{constant_words, expr_words, operands_words, in_brackets, in_parens, ref_words};

use crate::page::{Page, tri};
use out_of_memory::OutOfMemory;
use syntax::{keyword, sign};
use syntax_tree::{Constant, Expr, Op, Ref, Value};

impl Page {
    #[tactic(auto, using(crate::proofs::Steps::puts_append))]
    pub fn constant(&mut self, constant: &Constant) -> Result<(), OutOfMemory>
        ensures { OnOk result (self.new ≡ puts self.old
            (constant_words (placed_constant constant.now))) }
    {
        if constant.minus {
            tri!(self.sign(sign::MINUS));
        }
        match &constant.value {
            Value::Literal(value) => tri!(self.number(*value)),
            Value::Name(name) => tri!(self.name(name)),
        }
        Ok(())
    }

    /// The operator's sign or keyword.
    fn operator(&mut self, op: Op) -> Result<(), OutOfMemory>
        ensures { OnOk result (self.new ≡ put self.old (op_word (op_of op))) }
    {
        match op {
            Op::Or => self.keyword(keyword::OR),
            Op::And => self.keyword(keyword::AND),
            Op::Equal => self.sign(sign::EQUAL),
            Op::Unequal => self.sign(sign::UNEQUAL),
            Op::Less => self.sign(sign::LESS),
            Op::LessEqual => self.sign(sign::LESS_EQUAL),
            Op::Greater => self.sign(sign::GREATER),
            Op::GreaterEqual => self.sign(sign::GREATER_EQUAL),
            Op::Add => self.sign(sign::PLUS),
            Op::Sub => self.sign(sign::MINUS),
            Op::Mul => self.sign(sign::TIMES),
            Op::Div => self.keyword(keyword::DIV),
            Op::Mod => self.keyword(keyword::MOD),
        }
    }

    /// The index of an element in its brackets.
    #[cycle(expr)]
    #[tactic(auto, using(crate::proofs::Steps::puts_append))]
    fn index(&mut self, index: &Expr) -> Result<(), OutOfMemory>
        ensures { OnOk result (self.new ≡ puts self.old (in_brackets (placed_expr index.now))) }
    {
        tri!(self.sign(sign::LEFT_BRACKET));
        tri!(self.expr(index));
        self.sign(sign::RIGHT_BRACKET)
    }

    /// Arguments in parentheses, with commas between them.
    #[cycle(expr)]
    #[tactic(auto, using(crate::proofs::Steps::puts_append))]
    pub fn args(&mut self, args: &[Expr]) -> Result<(), OutOfMemory>
        ensures { OnOk result (self.new ≡ puts self.old (in_parens (placed_exprs args.now))) }
    {
        self.sign(sign::LEFT_PAREN)?;
        if let Some((first, more)) = args.split_first() {
            self.expr(first)?;
            for arg in more {
                self.sign(sign::COMMA)?;
                self.expr(arg)?;
            }
        }
        self.sign(sign::RIGHT_PAREN)?;
        Ok(())
    }

    /// Operators, each with its right operand.
    #[cycle(expr)]
    fn operands(&mut self, operands: &[(Op, Expr)]) -> Result<(), OutOfMemory>
        ensures { OnOk result (self.new ≡ puts self.old
            (operands_words (placed_operands operands.now))) }
    {
        for operand in operands {
            self.operator(operand.0)?;
            self.expr(&operand.1)?;
        }
        Ok(())
    }

    /// An expression in parentheses.
    #[cycle(expr)]
    #[tactic(auto, using(crate::proofs::Steps::puts_append))]
    fn paren(&mut self, inner: &Expr) -> Result<(), OutOfMemory>
        ensures { OnOk result (self.new ≡ puts self.old
            (w.LEFT_PAREN ∷ (expr_words (placed_expr inner.now) ++ w.RIGHT_PAREN ∷ []))) }
    {
        tri!(self.sign(sign::LEFT_PAREN));
        tri!(self.expr(inner));
        self.sign(sign::RIGHT_PAREN)
    }

    /// The expression, in its line.
    #[cycle(expr)]
    #[tactic(auto, using(crate::proofs::Steps::puts_append))]
    pub fn expr(&mut self, expr: &Expr) -> Result<(), OutOfMemory>
        ensures { OnOk result (self.new ≡ puts self.old (expr_words (placed_expr expr.now))) }
    {
        match expr {
            Expr::Literal { value, .. } => self.number(*value),
            Expr::True { .. } => self.keyword(keyword::TRUE),
            Expr::False { .. } => self.keyword(keyword::FALSE),
            Expr::Variable { name, .. } => self.name(name),
            Expr::Element { name, index, .. } => {
                self.name(name)?;
                self.index(index)
            }
            Expr::Call { name, args, .. } => {
                self.name(name)?;
                self.args(args.as_slice())
            }
            Expr::Minus { operand, .. } => {
                self.sign(sign::MINUS)?;
                self.expr(operand)
            }
            Expr::Not { operand, .. } => {
                self.keyword(keyword::NOT)?;
                self.expr(operand)
            }
            Expr::Paren { inner, .. } => self.paren(inner),
            Expr::Chain { first, rest } => {
                self.expr(first)?;
                self.operands(rest.as_slice())
            }
        }
    }

    #[tactic(auto, using(crate::proofs::Steps::puts_append))]
    pub fn reference(&mut self, target: &Ref) -> Result<(), OutOfMemory>
        ensures { OnOk result (self.new ≡ puts self.old (ref_words (placed_ref target.now))) }
    {
        tri!(self.name(&target.name));
        if let Some(index) = &target.index {
            tri!(self.index(index));
        }
        Ok(())
    }
}
