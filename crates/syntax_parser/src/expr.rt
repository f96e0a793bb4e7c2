//! Reading constants and expressions.

ghost use Rattle.std.specs.Prelude.{◌≡◌, ◌≤◌, ◌-◌, true, map, IfOk, IfErr};
ghost use Rattle.out_of_memory.specs.Refused.{refused};
ghost use Rattle.syntax_tree.specs.Placed.{placed_constant, placed_expr, op_of as placed_of};
ghost use Rattle.syntax.specs.Words.{COMMA, keyword as keyword_word, sign as sign_word};
ghost use Rattle.syntax.specs.ExprGrammar.{height as height_in};
ghost use Rattle.syntax_reading.specs.ExprReading as reading;
ghost use Rattle.syntax_parser.specs.Reads.{Reads, row_from, with_front, placed_op, placed_pair, op_of_kind};

use crate::fault::{Refusal, made, tri};
use crate::parser::Parser;
use out_of_memory::OutOfMemory;
use std::alloc::Global;
use syntax::{TokenKind, keyword, sign};
use syntax_tree::{Constant, Expr, List, Name, Op, Place, Value};

fn keyword_op(at: u8) -> Option<Op>
    ensures { placed_op result ≡ reading.op_of (keyword_word at) }
{
    match at {
        keyword::OR => Some(Op::Or),
        keyword::AND => Some(Op::And),
        keyword::DIV => Some(Op::Div),
        keyword::MOD => Some(Op::Mod),
        _ => None,
    }
}

fn sign_op(at: u8) -> Option<Op>
    ensures { placed_op result ≡ reading.op_of (sign_word at) }
{
    match at {
        sign::EQUAL => Some(Op::Equal),
        sign::UNEQUAL => Some(Op::Unequal),
        sign::LESS => Some(Op::Less),
        sign::LESS_EQUAL => Some(Op::LessEqual),
        sign::GREATER => Some(Op::Greater),
        sign::GREATER_EQUAL => Some(Op::GreaterEqual),
        sign::PLUS => Some(Op::Add),
        sign::MINUS => Some(Op::Sub),
        sign::TIMES => Some(Op::Mul),
        _ => None,
    }
}

fn op_of(kind: TokenKind) -> Option<Op>
    ensures { placed_op result ≡ op_of_kind kind }
{
    match kind {
        TokenKind::Keyword { at } => keyword_op(at),
        TokenKind::Sign { at } => sign_op(at),
        _ => None,
    }
}

/// The level of an operator's row: 5 `or`, 4 `and`, 3 comparisons, 2 sums, 1 products.
fn height_of(op: Op) -> u8
    ensures { result ≡ height_in (placed_of op) }
{
    match op {
        Op::Or => 5,
        Op::And => 4,
        Op::Equal | Op::Unequal | Op::Less | Op::LessEqual | Op::Greater | Op::GreaterEqual => 3,
        Op::Add | Op::Sub => 2,
        Op::Mul | Op::Div | Op::Mod => 1,
    }
}

fn of_height(op: Option<Op>, height: u8) -> Option<Op>
    ensures { placed_op result ≡ reading.of_level height (placed_op op) }
{
    match op {
        Some(op) if height_of(op) == height => Some(op),
        _ => None,
    }
}

/// An expression in a box.
pub(crate) fn boxed(alloc: Global, expr: Expr) -> Result<Box<Expr>, Refusal>
    ensures ok { IfOk result (λ b. b.value ≡ expr) }
    ensures err { IfErr result (λ e. e ≡ Refusal.Memory refused) }
{
    match Box::new(alloc, expr) {
        Ok(it) => Ok(it),
        Err(error) => Err(Refusal::Memory(OutOfMemory::from(error))),
    }
}

impl Parser<'_> {
    /// The operator of this height that is next.
    fn op_at(&self, height: u8) -> Option<Op>
        ensures { placed_op result ≡ reading.op_at height self.now }
    {
        match self.kind() {
            Some(kind) => of_height(op_of(kind), height),
            None => None,
        }
    }

    fn has_op(&self, height: u8) -> bool
        ensures { result ≡ reading.is_some (reading.op_at height self.now) }
    {
        self.op_at(height).is_some()
    }

    /// A constant behind its minus.
    #[tactic(auto, unfolding(syntax_reading::specs::ExprReading::signless))]
    fn signless(&mut self, alloc: Global, place: Place) -> Result<Constant, Refusal>
        ensures { Reads placed_constant (reading.signless place true self.old) result self.new }
    {
        if self.is_literal() {
            let (value, value_place) = tri!(self.numeral());
            return Ok(Constant {
                place,
                minus: true,
                value: Value::Literal(value),
                value_place,
            });
        }
        let (name, value_place) = tri!(self.name(alloc));
        Ok(Constant {
            place,
            minus: true,
            value: Value::Name(name),
            value_place,
        })
    }

    /// A constant with no minus.
    #[tactic(auto, unfolding(syntax_reading::specs::ExprReading::unsigned))]
    fn unsigned(&mut self, alloc: Global) -> Result<Constant, Refusal>
        ensures { Reads placed_constant (reading.unsigned self.old) result self.new }
    {
        if self.is_literal() {
            let (value, place) = tri!(self.numeral());
            return Ok(Constant {
                place,
                minus: false,
                value: Value::Literal(value),
                value_place: place,
            });
        }
        let (name, place) = tri!(self.name(alloc));
        Ok(Constant {
            place,
            minus: false,
            value: Value::Name(name),
            value_place: place,
        })
    }

    #[tactic(auto, unfolding(syntax_reading::specs::ExprReading::constant))]
    pub(crate) fn constant(&mut self, alloc: Global) -> Result<Constant, Refusal>
        ensures { Reads placed_constant (reading.constant self.old) result self.new }
    {
        if self.is_sign(sign::MINUS) {
            let place = tri!(self.expect_sign(sign::MINUS));
            return self.signless(alloc, place);
        }
        self.unsigned(alloc)
    }

    /// A constant in a box.
    pub(crate) fn boxed_constant(&mut self, alloc: Global) -> Result<Box<Constant>, Refusal>
        ensures { Reads (λ b. placed_constant b.value) (reading.constant self.old) result self.new }
    {
        let constant = tri!(self.constant(alloc));
        Ok(made!(Box::new(alloc, constant)))
    }

    /// An expression of at most this height, with `depth` levels of nesting left: a factor, and for
    /// each height in turn, the lowest first, the operators of that height behind what was read.
    #[cycle(expr)]
    #[tactic(auto, unfolding(syntax_reading::specs::ExprReading::level))]
    pub(crate) fn level(&mut self, alloc: Global, depth: usize, height: u8) -> Result<Expr, Refusal>
        requires { height ≤ 5 }
        ensures { Reads placed_expr (reading.level (reading.factor depth) height self.old) result
            self.new }
    {
        let mut expr = tri!(self.factor(alloc, depth));
        for below in 0..height {
            if self.has_op(below + 1) {
                expr = tri!(self.row(alloc, depth, below + 1, expr));
            }
        }
        Ok(expr)
    }

    /// A first operand, and behind it operators of this height with theirs.
    #[cycle(expr)]
    fn row(&mut self, alloc: Global, depth: usize, height: u8, first: Expr) -> Result<Expr, Refusal>
        requires low { 1 ≤ height }
        requires high { height ≤ 5 }
        ensures { Reads placed_expr (row_from height
            (reading.level (reading.factor depth) (height - 1)) (placed_expr first) self.old) result
            self.new }
    {
        let rest = tri!(self.operands(alloc, depth, height));
        if rest.is_empty() {
            return Ok(first);
        }
        Ok(Expr::Chain {
            first: tri!(boxed(alloc, first)),
            rest,
        })
    }

    #[cycle(expr)]
    #[tactic(auto, unfolding(syntax_reading::specs::ExprReading::operands_at))]
    fn operands(
        &mut self,
        alloc: Global,
        depth: usize,
        height: u8,
    ) -> Result<List<(Op, Expr)>, Refusal>
        requires low { 1 ≤ height }
        requires high { height ≤ 5 }
        ensures { Reads (map placed_pair) (reading.operands_at height
            (reading.level (reading.factor depth) (height - 1)) self.old) result self.new }
    {
        let mut rest = List::new(alloc);
        let turns = if height == 3 { 1 } else { self.left() };
        for _turn in 0..turns {
            if !self.has_op(height) {
                return Ok(rest);
            }
            let operand = tri!(self.operand(alloc, depth, height));
            made!(rest.push(operand));
        }
        Ok(rest)
    }

    /// An operator of this height with its right operand.
    #[cycle(expr)]
    #[tactic(auto, unfolding(syntax_reading::specs::ExprReading::operand_at))]
    fn operand(&mut self, alloc: Global, depth: usize, height: u8) -> Result<(Op, Expr), Refusal>
        requires low { 1 ≤ height }
        requires high { height ≤ 5 }
        ensures { Reads placed_pair (reading.operand_at height
            (reading.level (reading.factor depth) (height - 1)) self.old) result self.new }
    {
        match self.op_at(height) {
            Some(op) => {
                self.next();
                let right = tri!(self.level(alloc, depth, height - 1));
                Ok((op, right))
            }
            None => Err(Refusal::Syntax { left: self.left() }),
        }
    }

    #[cycle(expr)]
    #[tactic(auto, unfolding(syntax_reading::specs::ExprReading::factor, syntax_reading::specs::ExprReading::factor_in))]
    fn factor(&mut self, alloc: Global, depth: usize) -> Result<Expr, Refusal>
        ensures { Reads placed_expr (reading.factor depth self.old) result self.new }
    {
        if self.is_name() {
            let (name, place) = tri!(self.name(alloc));
            return self.named_factor(alloc, depth, name, place);
        }
        if self.is_sign(sign::LEFT_PAREN) {
            return self.paren(alloc, depth);
        }
        if self.is_sign(sign::MINUS) {
            return self.minus(alloc, depth);
        }
        if self.is_keyword(keyword::NOT) {
            return self.negation(alloc, depth);
        }
        self.simple_factor()
    }

    /// A literal or a truth value.
    #[tactic(auto, unfolding(syntax_reading::specs::ExprReading::simple_factor))]
    fn simple_factor(&mut self) -> Result<Expr, Refusal>
        ensures { Reads placed_expr (reading.simple_factor self.old) result self.new }
    {
        if self.is_literal() {
            let (value, place) = tri!(self.numeral());
            return Ok(Expr::Literal { place, value });
        }
        if self.is_keyword(keyword::TRUE) {
            let place = tri!(self.expect_keyword(keyword::TRUE));
            return Ok(Expr::True { place });
        }
        let place = tri!(self.expect_keyword(keyword::FALSE));
        Ok(Expr::False { place })
    }

    /// What a name that begins a factor is.
    #[cycle(expr)]
    #[tactic(auto, unfolding(syntax_reading::specs::ExprReading::named_factor))]
    fn named_factor(
        &mut self,
        alloc: Global,
        depth: usize,
        name: Name,
        place: Place,
    ) -> Result<Expr, Refusal>
        ensures { Reads placed_expr (reading.named_factor (reading.inner depth)
            (name, place) self.old) result self.new }
    {
        if self.is_sign(sign::LEFT_BRACKET) {
            let index = tri!(self.index(alloc, depth));
            return Ok(Expr::Element {
                place,
                name,
                index: tri!(boxed(alloc, index)),
            });
        }
        if self.is_sign(sign::LEFT_PAREN) {
            let args = tri!(self.args(alloc, depth));
            return Ok(Expr::Call { place, name, args });
        }
        Ok(Expr::Variable { place, name })
    }

    /// An index in its brackets.
    #[cycle(expr)]
    #[tactic(auto, unfolding(syntax_reading::specs::ExprReading::index))]
    pub(crate) fn index(&mut self, alloc: Global, depth: usize) -> Result<Expr, Refusal>
        ensures { Reads placed_expr (reading.index (reading.inner depth) self.old) result self.new }
    {
        let inside = tri!(self.deeper(depth));
        tri!(self.expect_sign(sign::LEFT_BRACKET));
        let index = tri!(self.level(alloc, inside, 5));
        tri!(self.expect_sign(sign::RIGHT_BRACKET));
        Ok(index)
    }

    /// Arguments in their parentheses.
    #[cycle(expr)]
    #[tactic(auto, unfolding(syntax_reading::specs::ExprReading::args, syntax_reading::specs::ExprReading::in_parens))]
    pub(crate) fn args(&mut self, alloc: Global, depth: usize) -> Result<List<Expr>, Refusal>
        ensures { Reads (map placed_expr) (reading.args (reading.inner depth) self.old) result
            self.new }
    {
        let inside = tri!(self.deeper(depth));
        tri!(self.expect_sign(sign::LEFT_PAREN));
        let args = tri!(self.some_args(alloc, inside));
        tri!(self.expect_sign(sign::RIGHT_PAREN));
        Ok(args)
    }

    #[cycle(expr)]
    #[tactic(auto, unfolding(syntax_reading::specs::ExprReading::some_listed, syntax_reading::specs::ExprReading::listed))]
    fn some_args(&mut self, alloc: Global, depth: usize) -> Result<List<Expr>, Refusal>
        ensures { Reads (map placed_expr) (reading.some_listed (reading.expr depth) self.old) result
            self.new }
    {
        let mut args = List::new(alloc);
        if self.is_sign(sign::RIGHT_PAREN) {
            return Ok(args);
        }
        let first = tri!(self.level(alloc, depth, 5));
        made!(args.push(first));
        self.more_args(alloc, depth, args)
    }

    /// The arguments behind those that were read, each after a comma.
    #[cycle(expr)]
    #[tactic(auto, unfolding(syntax_reading::specs::ExprReading::many))]
    fn more_args(
        &mut self,
        alloc: Global,
        depth: usize,
        mut args: List<Expr>,
    ) -> Result<List<Expr>, Refusal>
        ensures { Reads (map placed_expr) (with_front (map placed_expr args)
            (reading.many (reading.is_at COMMA)
            (reading.behind_comma (reading.expr depth)) self.old)) result self.new }
    {
        let turns = self.left();
        for _turn in 0..turns {
            if !self.is_sign(sign::COMMA) {
                return Ok(args);
            }
            let more = tri!(self.more_arg(alloc, depth));
            made!(args.push(more));
        }
        Ok(args)
    }

    /// An argument behind a comma.
    #[cycle(expr)]
    #[tactic(auto, unfolding(syntax_reading::specs::ExprReading::behind_comma))]
    fn more_arg(&mut self, alloc: Global, depth: usize) -> Result<Expr, Refusal>
        ensures { Reads placed_expr (reading.behind_comma (reading.expr depth) self.old) result
            self.new }
    {
        tri!(self.expect_sign(sign::COMMA));
        self.level(alloc, depth, 5)
    }

    #[cycle(expr)]
    #[tactic(auto, unfolding(syntax_reading::specs::ExprReading::minus_factor))]
    fn minus(&mut self, alloc: Global, depth: usize) -> Result<Expr, Refusal>
        ensures { Reads placed_expr (reading.minus_factor (reading.inner depth) self.old) result
            self.new }
    {
        let inside = tri!(self.deeper(depth));
        let place = tri!(self.expect_sign(sign::MINUS));
        let operand = tri!(self.factor(alloc, inside));
        Ok(Expr::Minus {
            place,
            operand: tri!(boxed(alloc, operand)),
        })
    }

    #[cycle(expr)]
    #[tactic(auto, unfolding(syntax_reading::specs::ExprReading::negation_factor))]
    fn negation(&mut self, alloc: Global, depth: usize) -> Result<Expr, Refusal>
        ensures { Reads placed_expr (reading.negation_factor (reading.inner depth) self.old) result
            self.new }
    {
        let inside = tri!(self.deeper(depth));
        let place = tri!(self.expect_keyword(keyword::NOT));
        let operand = tri!(self.factor(alloc, inside));
        Ok(Expr::Not {
            place,
            operand: tri!(boxed(alloc, operand)),
        })
    }

    /// An expression in parentheses.
    #[cycle(expr)]
    #[tactic(auto, unfolding(syntax_reading::specs::ExprReading::paren_factor))]
    fn paren(&mut self, alloc: Global, depth: usize) -> Result<Expr, Refusal>
        ensures { Reads placed_expr (reading.paren_factor (reading.inner depth) self.old) result
            self.new }
    {
        let inside = tri!(self.deeper(depth));
        let place = tri!(self.expect_sign(sign::LEFT_PAREN));
        let inner = tri!(self.level(alloc, inside, 5));
        tri!(self.expect_sign(sign::RIGHT_PAREN));
        Ok(Expr::Paren {
            place,
            inner: tri!(boxed(alloc, inner)),
        })
    }
}
