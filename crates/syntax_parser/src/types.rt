//! Reading types, variables and parameters.

ghost use Rattle.std.specs.Prelude.{◌≡◌, map};
ghost use Rattle.syntax_tree.specs.Placed.{placed_constant, placed_scalar, placed_kind, placed_var, placed_param};
ghost use Rattle.syntax.specs.Words.{COMMA};
ghost use Rattle.syntax_reading.specs.ExprReading.{many, is_at, behind_comma, some_listed};
ghost use Rattle.syntax_reading.specs.Reading as reading;
ghost use Rattle.syntax_parser.specs.Reads.{Reads, with_front, placed_range};

use crate::fault::{Refusal, made, tri};
use crate::parser::Parser;
use std::alloc::Global;
use syntax::{keyword, sign};
use syntax_tree::{Constant, List, Param, Scalar, Type, Var};

impl Parser<'_> {
    /// Two constants with `..` between them.
    #[tactic(auto, unfolding(syntax_reading::specs::Reading::range))]
    fn range(&mut self, alloc: Global) -> Result<(Constant, Constant), Refusal>
        ensures { Reads placed_range (reading.range self.old) result self.new }
    {
        let low = tri!(self.constant(alloc));
        tri!(self.expect_sign(sign::RANGE));
        let high = tri!(self.constant(alloc));
        Ok((low, high))
    }

    /// The type of a word.
    #[tactic(auto, unfolding(syntax_reading::specs::Reading::scalar_type))]
    pub(crate) fn scalar_type(&mut self, alloc: Global) -> Result<Scalar, Refusal>
        ensures { Reads placed_scalar (reading.scalar_type self.old) result self.new }
    {
        if self.is_keyword(keyword::INT) {
            tri!(self.expect_keyword(keyword::INT));
            return Ok(Scalar::Int);
        }
        if self.is_keyword(keyword::BOOLEAN) {
            tri!(self.expect_keyword(keyword::BOOLEAN));
            return Ok(Scalar::Boolean);
        }
        let (low, high) = tri!(self.range(alloc));
        Ok(Scalar::Subrange { low, high })
    }

    /// The type of a variable.
    #[tactic(auto, unfolding(syntax_reading::specs::Reading::kind))]
    fn variable_type(&mut self, alloc: Global) -> Result<Type, Refusal>
        ensures { Reads placed_kind (reading.kind self.old) result self.new }
    {
        if self.is_keyword(keyword::ARRAY) {
            tri!(self.expect_keyword(keyword::ARRAY));
            let (low, high) = tri!(self.range(alloc));
            tri!(self.expect_keyword(keyword::OF));
            let element = tri!(self.scalar_type(alloc));
            return Ok(Type::Array { low, high, element });
        }
        let scalar = tri!(self.scalar_type(alloc));
        Ok(Type::Scalar(scalar))
    }

    #[tactic(auto, unfolding(syntax_reading::specs::Reading::var))]
    pub(crate) fn var(&mut self, alloc: Global) -> Result<Var, Refusal>
        ensures { Reads placed_var (reading.var self.old) result self.new }
    {
        tri!(self.expect_keyword(keyword::VAR));
        let (name, place) = tri!(self.name(alloc));
        tri!(self.expect_sign(sign::COLON));
        let kind = tri!(self.variable_type(alloc));
        Ok(Var { name, place, kind })
    }

    /// As many variables as there are.
    #[tactic(auto, unfolding(syntax_reading::specs::Reading::vars, syntax_reading::specs::ExprReading::many))]
    pub(crate) fn vars(&mut self, alloc: Global) -> Result<List<Var>, Refusal>
        ensures { Reads (map placed_var) (reading.vars self.old) result self.new }
    {
        let mut vars = List::new(alloc);
        let turns = self.left();
        for _turn in 0..turns {
            if !self.is_keyword(keyword::VAR) {
                return Ok(vars);
            }
            let var = tri!(self.var(alloc));
            made!(vars.push(var));
        }
        Ok(vars)
    }

    #[tactic(auto, unfolding(syntax_reading::specs::Reading::param))]
    fn param(&mut self, alloc: Global) -> Result<Param, Refusal>
        ensures { Reads placed_param (reading.param self.old) result self.new }
    {
        let (name, place) = tri!(self.name(alloc));
        tri!(self.expect_sign(sign::COLON));
        let kind = tri!(self.scalar_type(alloc));
        Ok(Param { name, place, kind })
    }

    /// Parameters in their parentheses.
    #[tactic(auto, unfolding(syntax_reading::specs::Reading::params, syntax_reading::specs::ExprReading::in_parens))]
    pub(crate) fn params(&mut self, alloc: Global) -> Result<List<Param>, Refusal>
        ensures { Reads (map placed_param) (reading.params self.old) result self.new }
    {
        tri!(self.expect_sign(sign::LEFT_PAREN));
        let params = tri!(self.some_params(alloc));
        tri!(self.expect_sign(sign::RIGHT_PAREN));
        Ok(params)
    }

    #[tactic(auto, unfolding(syntax_reading::specs::ExprReading::some_listed, syntax_reading::specs::ExprReading::listed))]
    fn some_params(&mut self, alloc: Global) -> Result<List<Param>, Refusal>
        ensures { Reads (map placed_param) (some_listed reading.param self.old) result self.new }
    {
        let mut params = List::new(alloc);
        if self.is_sign(sign::RIGHT_PAREN) {
            return Ok(params);
        }
        let first = tri!(self.param(alloc));
        made!(params.push(first));
        self.more_params(alloc, params)
    }

    /// The parameters behind those that were read, each after a comma.
    #[tactic(auto, unfolding(syntax_reading::specs::ExprReading::many))]
    fn more_params(
        &mut self,
        alloc: Global,
        mut params: List<Param>,
    ) -> Result<List<Param>, Refusal>
        ensures { Reads (map placed_param) (with_front (map placed_param params)
            (many (is_at COMMA) (behind_comma reading.param) self.old)) result self.new }
    {
        let turns = self.left();
        for _turn in 0..turns {
            if !self.is_sign(sign::COMMA) {
                return Ok(params);
            }
            let more = tri!(self.next_param(alloc));
            made!(params.push(more));
        }
        Ok(params)
    }

    #[tactic(auto, unfolding(syntax_reading::specs::ExprReading::behind_comma))]
    fn next_param(&mut self, alloc: Global) -> Result<Param, Refusal>
        ensures { Reads placed_param (behind_comma reading.param self.old) result self.new }
    {
        tri!(self.expect_sign(sign::COMMA));
        self.param(alloc)
    }
}
