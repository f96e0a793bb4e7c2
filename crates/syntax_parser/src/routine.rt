//! Reading routines and monitors.

ghost use Rattle.std.specs.Prelude.{◌≡◌, map};
ghost use Rattle.syntax_tree.specs.Placed.{placed_expr, placed_scalar, placed_stmt, placed_routine, placed_routine_kind, placed_member, placed_monitor, optional};
ghost use Rattle.syntax.specs.Grammar.{MOST_LEVELS};
ghost use Rattle.syntax_reading.specs.Reading as reading;
ghost use Rattle.syntax_parser.specs.Reads.{Reads};
ghost use Rattle.syntax_parser.specs.Parts.{signature, placed_signature, routine_end, placed_routine_end};

use crate::fault::{Refusal, made, tri};
use crate::parser::Parser;
use std::alloc::Global;
use syntax::{keyword, sign};
use syntax_tree::{
    Expr, List, Member, Monitor, Name, Param, Place, Routine, RoutineKind, Scalar, Stmt, Var,
};

/// What stands behind the signature of a routine.
#[derive(Drop)]
struct RoutineEnd {
    vars: List<Var>,
    body: List<Stmt>,
    value: Option<Expr>,
    close: Name,
    close_place: Place,
}

impl Parser<'_> {
    /// Statements behind their `begin`.
    #[tactic(auto, unfolding(syntax_reading::specs::Reading::block))]
    pub(crate) fn block(&mut self, alloc: Global) -> Result<List<Stmt>, Refusal>
        ensures { Reads (map placed_stmt) (reading.block MOST_LEVELS self.old) result self.new }
    {
        tri!(self.expect_keyword(keyword::BEGIN));
        self.stmts(alloc, 64)
    }

    /// The closing name behind its `end`.
    #[tactic(auto, unfolding(syntax_reading::specs::Reading::close))]
    pub(crate) fn close(&mut self, alloc: Global) -> Result<(Name, Place), Refusal>
        ensures { Reads (λ n. n) (reading.close self.old) result self.new }
    {
        tri!(self.expect_keyword(keyword::END));
        self.name(alloc)
    }

    #[tactic(auto, unfolding(syntax_reading::specs::Reading::routine_kind))]
    fn routine_kind(&mut self) -> Result<RoutineKind, Refusal>
        ensures { Reads placed_routine_kind (reading.routine_kind self.old) result self.new }
    {
        if self.is_keyword(keyword::PROCEDURE) {
            tri!(self.expect_keyword(keyword::PROCEDURE));
            return Ok(RoutineKind::Procedure);
        }
        tri!(self.expect_keyword(keyword::FUNCTION));
        Ok(RoutineKind::Function)
    }

    /// The type of the result, where the routine is a function.
    #[tactic(auto, unfolding(syntax_reading::specs::Reading::result))]
    fn result(&mut self, alloc: Global, kind: RoutineKind) -> Result<Option<Scalar>, Refusal>
        ensures { Reads (optional placed_scalar)
            (reading.result (placed_routine_kind kind) self.old) result self.new }
    {
        match kind {
            RoutineKind::Procedure => Ok(None),
            RoutineKind::Function => {
                tri!(self.expect_keyword(keyword::RETURNS));
                let scalar = tri!(self.scalar_type(alloc));
                Ok(Some(scalar))
            }
        }
    }

    /// The expression of the result, where the routine is a function.
    #[tactic(auto, unfolding(syntax_reading::specs::Reading::value))]
    fn value(&mut self, alloc: Global, kind: RoutineKind) -> Result<Option<Expr>, Refusal>
        ensures { Reads (optional placed_expr)
            (reading.value MOST_LEVELS (placed_routine_kind kind) self.old) result self.new }
    {
        match kind {
            RoutineKind::Procedure => Ok(None),
            RoutineKind::Function => {
                tri!(self.expect_keyword(keyword::RETURN));
                let value = tri!(self.level(alloc, 64, 5));
                Ok(Some(value))
            }
        }
    }

    /// The parameters and the type of the result.
    #[tactic(auto, unfolding(crate::specs::Parts::signature))]
    fn signature(
        &mut self,
        alloc: Global,
        kind: RoutineKind,
    ) -> Result<(List<Param>, Option<Scalar>), Refusal>
        ensures { Reads placed_signature (signature (placed_routine_kind kind) self.old) result self.new }
    {
        let params = tri!(self.params(alloc));
        let result = tri!(self.result(alloc, kind));
        Ok((params, result))
    }

    #[tactic(auto, unfolding(crate::specs::Parts::routine_end))]
    fn routine_end(&mut self, alloc: Global, kind: RoutineKind) -> Result<RoutineEnd, Refusal>
        ensures { Reads placed_routine_end
            (routine_end MOST_LEVELS (placed_routine_kind kind) self.old) result self.new }
    {
        let vars = tri!(self.vars(alloc));
        let body = tri!(self.block(alloc));
        let value = tri!(self.value(alloc, kind));
        let (close, close_place) = tri!(self.close(alloc));
        Ok(RoutineEnd {
            vars,
            body,
            value,
            close,
            close_place,
        })
    }

    #[tactic(auto, using(crate::proofs::Parts::routine_parts))]
    pub(crate) fn routine(&mut self, alloc: Global) -> Result<Routine, Refusal>
        ensures { Reads placed_routine (reading.routine_decl MOST_LEVELS self.old) result self.new }
    {
        let kind = tri!(self.routine_kind());
        let (name, place) = tri!(self.name(alloc));
        let (params, result) = tri!(self.signature(alloc, kind));
        let end = tri!(self.routine_end(alloc, kind));
        Ok(Routine {
            kind,
            name,
            place,
            params,
            result,
            vars: end.vars,
            body: end.body,
            value: end.value,
            close: end.close,
            close_place: end.close_place,
        })
    }

    pub(crate) fn is_routine(&self) -> bool
        ensures { result ≡ reading.begins_routine self.now }
    {
        self.is_keyword(keyword::PROCEDURE) || self.is_keyword(keyword::FUNCTION)
    }

    /// As many routines as there are.
    #[tactic(auto, unfolding(syntax_reading::specs::Reading::routines, syntax_reading::specs::ExprReading::many))]
    pub(crate) fn routines(&mut self, alloc: Global) -> Result<List<Routine>, Refusal>
        ensures { Reads (map placed_routine) (reading.routines MOST_LEVELS self.old) result
            self.new }
    {
        let mut routines = List::new(alloc);
        let turns = self.left();
        for _turn in 0..turns {
            if !self.is_routine() {
                return Ok(routines);
            }
            let routine = tri!(self.routine(alloc));
            made!(routines.push(routine));
        }
        Ok(routines)
    }

    fn is_member(&self) -> bool
        ensures { result ≡ reading.begins_member self.now }
    {
        self.is_keyword(keyword::VAR) || self.is_keyword(keyword::CONDITION)
    }

    #[tactic(auto, unfolding(syntax_reading::specs::Reading::member))]
    fn member(&mut self, alloc: Global) -> Result<Member, Refusal>
        ensures { Reads placed_member (reading.member self.old) result self.new }
    {
        if self.is_keyword(keyword::VAR) {
            let var = tri!(self.var(alloc));
            return Ok(Member::Var(var));
        }
        tri!(self.expect_keyword(keyword::CONDITION));
        let (name, place) = tri!(self.name(alloc));
        Ok(Member::Condition { name, place })
    }

    /// As many variables and conditions as there are.
    #[tactic(auto, unfolding(syntax_reading::specs::Reading::members, syntax_reading::specs::ExprReading::many))]
    fn members(&mut self, alloc: Global) -> Result<List<Member>, Refusal>
        ensures { Reads (map placed_member) (reading.members self.old) result self.new }
    {
        let mut members = List::new(alloc);
        let turns = self.left();
        for _turn in 0..turns {
            if !self.is_member() {
                return Ok(members);
            }
            let member = tri!(self.member(alloc));
            made!(members.push(member));
        }
        Ok(members)
    }

    /// A routine behind its `entry`.
    #[tactic(auto, unfolding(syntax_reading::specs::Reading::entry_decl))]
    fn entry_decl(&mut self, alloc: Global) -> Result<Routine, Refusal>
        ensures { Reads placed_routine (reading.entry_decl MOST_LEVELS self.old) result self.new }
    {
        tri!(self.expect_keyword(keyword::ENTRY));
        self.routine(alloc)
    }

    /// As many entries as there are.
    #[tactic(auto, unfolding(syntax_reading::specs::Reading::entries, syntax_reading::specs::ExprReading::many))]
    fn entries(&mut self, alloc: Global) -> Result<List<Routine>, Refusal>
        ensures { Reads (map placed_routine) (reading.entries MOST_LEVELS self.old) result
            self.new }
    {
        let mut entries = List::new(alloc);
        let turns = self.left();
        for _turn in 0..turns {
            if !self.is_keyword(keyword::ENTRY) {
                return Ok(entries);
            }
            let entry = tri!(self.entry_decl(alloc));
            made!(entries.push(entry));
        }
        Ok(entries)
    }

    #[tactic(auto, unfolding(syntax_reading::specs::Reading::monitor_decl))]
    pub(crate) fn monitor(&mut self, alloc: Global) -> Result<Monitor, Refusal>
        ensures { Reads placed_monitor (reading.monitor_decl MOST_LEVELS self.old) result self.new }
    {
        tri!(self.expect_keyword(keyword::MONITOR));
        let (name, place) = tri!(self.name(alloc));
        let members = tri!(self.members(alloc));
        let entries = tri!(self.entries(alloc));
        let (close, close_place) = tri!(self.close(alloc));
        Ok(Monitor {
            name,
            place,
            members,
            entries,
            close,
            close_place,
        })
    }
}
