//! Reading statements.

ghost use Rattle.std.specs.Prelude.{◌≡◌, map, List as SpecList};
ghost use Rattle.syntax_tree.specs.declared.place.Place.{Place as SpecPlace};
ghost use Rattle.syntax_tree.specs.declared.expr.Expr.{Expr as SpecExpr};
ghost use Rattle.syntax_tree.specs.declared.stmt.Stmt.{Stmt as SpecStmt};
ghost use Rattle.syntax_tree.specs.Placed.{placed_expr, placed_ref, placed_stmt};
ghost use Rattle.syntax.specs.Words.{keyword as keyword_word, IF, FOR};
ghost use Rattle.syntax_reading.specs.StmtReading as reading;
ghost use Rattle.syntax_reading.specs.ExprReading.{is_entry as is_entry_at};
ghost use Rattle.syntax_parser.specs.Parts.{placed_bounds, wait_bounds, loop_bounds, loop_body};
ghost use Rattle.syntax_parser.specs.Reads.{Reads, placed_entry};

use crate::expr::boxed;
use crate::fault::{Refusal, made, tri};
use crate::parser::Parser;
use std::alloc::Global;
use syntax::{TokenKind, keyword, sign};
use syntax_tree::{Constant, Expr, List, Name, Place, Ref, Stmt};

/// The keyword begins a statement.
fn begins_stmt(at: u8) -> bool
    ensures { result ≡ reading.begins_by (keyword_word at) }
{
    matches!(
        at,
        keyword::IF
            | keyword::FOR
            | keyword::EXIT
            | keyword::GET
            | keyword::PUT
            | keyword::ASSERT
            | keyword::WAIT
            | keyword::SIGNAL
            | keyword::BROADCAST
            | keyword::EXCEPT
    )
}

impl Parser<'_> {
    /// A statement is next.
    fn is_stmt(&self) -> bool
        ensures { result ≡ reading.begins self.now }
    {
        match self.kind() {
            Some(TokenKind::Ident) => true,
            Some(TokenKind::Keyword { at }) => begins_stmt(at),
            _ => false,
        }
    }

    /// A name with a `.` behind it is next.
    fn is_entry(&self) -> bool
        ensures { result ≡ is_entry_at self.now }
    {
        match self.toks.split_first() {
            Some((_, others)) => {
                let behind = Parser {
                    text: self.text,
                    toks: others,
                };
                self.is_name() && behind.is_sign(sign::DOT)
            }
            None => false,
        }
    }

    /// What is assigned to, behind its name.
    #[tactic(auto, unfolding(syntax_reading::specs::StmtReading::reference_from))]
    fn reference_from(
        &mut self,
        alloc: Global,
        depth: usize,
        name: Name,
        place: Place,
    ) -> Result<Ref, Refusal>
        ensures { Reads placed_ref (reading.reference_from depth (name, place) self.old) result
            self.new }
    {
        if self.is_sign(sign::LEFT_BRACKET) {
            let index = tri!(self.index(alloc, depth));
            return Ok(Ref {
                place,
                name,
                index: Some(tri!(boxed(alloc, index))),
            });
        }
        Ok(Ref {
            place,
            name,
            index: None,
        })
    }

    #[tactic(auto, unfolding(syntax_reading::specs::StmtReading::reference))]
    fn reference(&mut self, alloc: Global, depth: usize) -> Result<Ref, Refusal>
        ensures { Reads placed_ref (reading.reference depth self.old) result self.new }
    {
        let (name, place) = tri!(self.name(alloc));
        self.reference_from(alloc, depth, name, place)
    }

    /// The arguments of an entry.
    #[tactic(auto, unfolding(syntax_reading::specs::StmtReading::entry_args))]
    fn entry_args(&mut self, alloc: Global, depth: usize) -> Result<List<Expr>, Refusal>
        ensures { Reads (map placed_expr) (reading.entry_args depth self.old) result self.new }
    {
        if self.is_sign(sign::LEFT_PAREN) {
            return self.args(alloc, depth);
        }
        Err(Refusal::Syntax { left: self.left() })
    }

    /// The entry that is called and its arguments, behind the monitor's name.
    #[tactic(auto, unfolding(syntax_reading::specs::StmtReading::entry))]
    fn entry(&mut self, alloc: Global, depth: usize) -> Result<(Name, Place, List<Expr>), Refusal>
        ensures { Reads placed_entry (reading.entry depth self.old) result self.new }
    {
        tri!(self.expect_sign(sign::DOT));
        let (entry, place) = tri!(self.name(alloc));
        let args = tri!(self.entry_args(alloc, depth));
        Ok((entry, place, args))
    }

    /// What is assigned to this, behind the `:=`.
    #[tactic(auto, unfolding(syntax_reading::specs::StmtReading::assigned))]
    fn assigned(&mut self, alloc: Global, depth: usize, target: Ref) -> Result<Stmt, Refusal>
        ensures { Reads placed_stmt (reading.assigned depth (placed_ref target) self.old) result
            self.new }
    {
        if self.is_keyword(keyword::EMPTY) {
            tri!(self.expect_keyword(keyword::EMPTY));
            let (cond, cond_place) = tri!(self.name(alloc));
            return Ok(Stmt::AssignEmpty {
                target,
                cond,
                cond_place,
            });
        }
        if self.is_entry() {
            let (mon, mon_place) = tri!(self.name(alloc));
            let (entry, entry_place, args) = tri!(self.entry(alloc, depth));
            return Ok(Stmt::AssignEntry {
                target,
                mon,
                mon_place,
                entry,
                entry_place,
                args,
            });
        }
        let value = tri!(self.level(alloc, depth, 5));
        Ok(Stmt::Assign { target, value })
    }

    /// A statement that begins with this name.
    #[tactic(auto, unfolding(syntax_reading::specs::StmtReading::named_stmt))]
    fn named_stmt(
        &mut self,
        alloc: Global,
        depth: usize,
        name: Name,
        place: Place,
    ) -> Result<Stmt, Refusal>
        ensures { Reads placed_stmt (reading.named_stmt depth (name, place) self.old) result
            self.new }
    {
        if self.is_sign(sign::LEFT_PAREN) {
            let args = tri!(self.args(alloc, depth));
            return Ok(Stmt::Call { place, name, args });
        }
        if self.is_sign(sign::DOT) {
            let (entry, entry_place, args) = tri!(self.entry(alloc, depth));
            return Ok(Stmt::CallEntry {
                place,
                mon: name,
                entry,
                entry_place,
                args,
            });
        }
        let target = tri!(self.reference_from(alloc, depth, name, place));
        tri!(self.expect_sign(sign::ASSIGN));
        self.assigned(alloc, depth, target)
    }

    #[tactic(auto, unfolding(syntax_reading::specs::StmtReading::exit_stmt))]
    fn exit_stmt(&mut self, alloc: Global, depth: usize) -> Result<Stmt, Refusal>
        ensures { Reads placed_stmt (reading.exit_stmt depth self.old) result self.new }
    {
        let place = tri!(self.expect_keyword(keyword::EXIT));
        tri!(self.expect_keyword(keyword::WHEN));
        let test = tri!(self.level(alloc, depth, 5));
        Ok(Stmt::ExitWhen { place, test })
    }

    #[tactic(auto, unfolding(syntax_reading::specs::StmtReading::get_stmt))]
    fn get_stmt(&mut self, alloc: Global, depth: usize) -> Result<Stmt, Refusal>
        ensures { Reads placed_stmt (reading.get_stmt depth self.old) result self.new }
    {
        let place = tri!(self.expect_keyword(keyword::GET));
        let (device, device_place) = tri!(self.name(alloc));
        let target = tri!(self.reference(alloc, depth));
        Ok(Stmt::Get {
            place,
            device,
            device_place,
            target,
        })
    }

    #[tactic(auto, unfolding(syntax_reading::specs::StmtReading::put_stmt))]
    fn put_stmt(&mut self, alloc: Global, depth: usize) -> Result<Stmt, Refusal>
        ensures { Reads placed_stmt (reading.put_stmt depth self.old) result self.new }
    {
        let place = tri!(self.expect_keyword(keyword::PUT));
        let (device, device_place) = tri!(self.name(alloc));
        let value = tri!(self.level(alloc, depth, 5));
        Ok(Stmt::Put {
            place,
            device,
            device_place,
            value,
        })
    }

    #[tactic(auto, unfolding(syntax_reading::specs::StmtReading::assert_stmt))]
    fn assert_stmt(&mut self, alloc: Global, depth: usize) -> Result<Stmt, Refusal>
        ensures { Reads placed_stmt (reading.assert_stmt depth self.old) result self.new }
    {
        let place = tri!(self.expect_keyword(keyword::ASSERT));
        let test = tri!(self.level(alloc, depth, 5));
        Ok(Stmt::Assert { place, test })
    }

    /// How long is waited, behind the condition, and the number of the exception.
    #[tactic(auto, unfolding(crate::specs::Parts::wait_bounds))]
    fn wait_bounds(&mut self, alloc: Global) -> Result<(Box<Constant>, Box<Constant>), Refusal>
        ensures { Reads placed_bounds (wait_bounds self.old) result self.new }
    {
        tri!(self.expect_keyword(keyword::NO_LONGER_THAN));
        let limit = tri!(self.boxed_constant(alloc));
        tri!(self.expect_sign(sign::COLON));
        let number = tri!(self.boxed_constant(alloc));
        Ok((limit, number))
    }

    #[tactic(auto, using(crate::proofs::Parts::wait_parts))]
    fn wait_stmt(&mut self, alloc: Global) -> Result<Stmt, Refusal>
        ensures { Reads placed_stmt (reading.wait_stmt self.old) result self.new }
    {
        let place = tri!(self.expect_keyword(keyword::WAIT));
        let (cond, cond_place) = tri!(self.name(alloc));
        let (limit, number) = tri!(self.wait_bounds(alloc));
        Ok(Stmt::Wait {
            place,
            cond,
            cond_place,
            limit,
            number,
        })
    }

    #[tactic(auto, unfolding(syntax_reading::specs::StmtReading::signal_stmt))]
    fn signal_stmt(&mut self, alloc: Global) -> Result<Stmt, Refusal>
        ensures { Reads placed_stmt (reading.signal_stmt self.old) result self.new }
    {
        let place = tri!(self.expect_keyword(keyword::SIGNAL));
        let (cond, cond_place) = tri!(self.name(alloc));
        Ok(Stmt::Signal {
            place,
            cond,
            cond_place,
        })
    }

    #[tactic(auto, unfolding(syntax_reading::specs::StmtReading::broadcast_stmt))]
    fn broadcast_stmt(&mut self, alloc: Global) -> Result<Stmt, Refusal>
        ensures { Reads placed_stmt (reading.broadcast_stmt self.old) result self.new }
    {
        let place = tri!(self.expect_keyword(keyword::BROADCAST));
        let (cond, cond_place) = tri!(self.name(alloc));
        Ok(Stmt::Broadcast {
            place,
            cond,
            cond_place,
        })
    }

    #[tactic(auto, unfolding(syntax_reading::specs::StmtReading::except_stmt))]
    fn except_stmt(&mut self, alloc: Global) -> Result<Stmt, Refusal>
        ensures { Reads placed_stmt (reading.except_stmt self.old) result self.new }
    {
        let place = tri!(self.expect_keyword(keyword::EXCEPT));
        let number = tri!(self.constant(alloc));
        Ok(Stmt::Except { place, number })
    }

    /// A statement with no expression.
    #[tactic(auto, unfolding(syntax_reading::specs::StmtReading::plain_stmt))]
    fn plain_stmt(&mut self, alloc: Global) -> Result<Stmt, Refusal>
        ensures { Reads placed_stmt (reading.plain_stmt self.old) result self.new }
    {
        if self.is_keyword(keyword::WAIT) {
            return self.wait_stmt(alloc);
        }
        if self.is_keyword(keyword::SIGNAL) {
            return self.signal_stmt(alloc);
        }
        if self.is_keyword(keyword::BROADCAST) {
            return self.broadcast_stmt(alloc);
        }
        self.except_stmt(alloc)
    }

    /// A statement that begins with its keyword and has no statements inside.
    #[tactic(auto, unfolding(syntax_reading::specs::StmtReading::simple_stmt))]
    fn simple_stmt(&mut self, alloc: Global, depth: usize) -> Result<Stmt, Refusal>
        ensures { Reads placed_stmt (reading.simple_stmt depth self.old) result self.new }
    {
        if self.is_keyword(keyword::EXIT) {
            return self.exit_stmt(alloc, depth);
        }
        if self.is_keyword(keyword::GET) {
            return self.get_stmt(alloc, depth);
        }
        if self.is_keyword(keyword::PUT) {
            return self.put_stmt(alloc, depth);
        }
        if self.is_keyword(keyword::ASSERT) {
            return self.assert_stmt(alloc, depth);
        }
        self.plain_stmt(alloc)
    }

    /// The `end` of a form that begins with this keyword.
    #[tactic(auto, unfolding(syntax_reading::specs::StmtReading::closing))]
    fn closing(&mut self, at: u8) -> Result<Place, Refusal>
        ensures { Reads (λ p. p) (reading.closing (keyword_word at) self.old) result self.new }
    {
        tri!(self.expect_keyword(keyword::END));
        self.expect_keyword(at)
    }

    /// A statement, with `depth` levels of nesting left.
    #[cycle(stmt)]
    #[tactic(auto, unfolding(syntax_reading::specs::StmtReading::stmt, syntax_reading::specs::StmtReading::stmt_by))]
    fn stmt(&mut self, alloc: Global, depth: usize) -> Result<Stmt, Refusal>
        ensures { Reads placed_stmt (reading.stmt depth self.old) result self.new }
    {
        if self.is_name() {
            let (name, place) = tri!(self.name(alloc));
            return self.named_stmt(alloc, depth, name, place);
        }
        if self.is_keyword(keyword::IF) {
            let inside = tri!(self.deeper(depth));
            return self.choice(alloc, inside);
        }
        if self.is_keyword(keyword::FOR) {
            let inside = tri!(self.deeper(depth));
            return self.for_stmt(alloc, inside);
        }
        self.simple_stmt(alloc, depth)
    }

    /// As many statements as there are.
    #[cycle(stmt)]
    #[tactic(auto, unfolding(syntax_reading::specs::StmtReading::stmts, syntax_reading::specs::StmtReading::stmts_by, syntax_reading::specs::ExprReading::many))]
    pub(crate) fn stmts(&mut self, alloc: Global, depth: usize) -> Result<List<Stmt>, Refusal>
        ensures { Reads (map placed_stmt) (reading.stmts depth self.old) result self.new }
    {
        let mut stmts = List::new(alloc);
        let turns = self.left();
        for _turn in 0..turns {
            if !self.is_stmt() {
                return Ok(stmts);
            }
            let stmt = tri!(self.stmt(alloc, depth));
            made!(stmts.push(stmt));
        }
        Ok(stmts)
    }

    /// A branch, with `depth` levels of nesting left inside it.
    #[cycle(stmt)]
    #[tactic(auto, unfolding(syntax_reading::specs::StmtReading::choice, syntax_reading::specs::StmtReading::stmts))]
    fn choice(&mut self, alloc: Global, depth: usize) -> Result<Stmt, Refusal>
        ensures { Reads placed_stmt (reading.choice depth (reading.stmt depth) self.old) result
            self.new }
    {
        let place = tri!(self.expect_keyword(keyword::IF));
        let test = tri!(self.level(alloc, depth, 5));
        tri!(self.expect_keyword(keyword::THEN));
        let first = tri!(self.stmts(alloc, depth));
        self.choice_from(alloc, depth, place, test, first)
    }

    /// What stands behind the first statements of a branch.
    #[cycle(stmt)]
    fn choice_from(
        &mut self,
        alloc: Global,
        depth: usize,
        place: Place,
        test: Expr,
        first: List<Stmt>,
    ) -> Result<Stmt, Refusal>
        ensures { Reads placed_stmt (reading.else_by (reading.stmt depth) place (placed_expr test)
            (map placed_stmt first) self.old) result self.new }
    {
        let second = tri!(self.else_stmts(alloc, depth));
        Ok(Stmt::If {
            place,
            test,
            first,
            second,
        })
    }

    /// The statements behind the `else` of a branch, where it has one, up to the branch's end.
    #[cycle(stmt)]
    #[tactic(auto, unfolding(syntax_reading::specs::StmtReading::else_by, syntax_reading::specs::StmtReading::stmts))]
    fn else_stmts(&mut self, alloc: Global, depth: usize) -> Result<Option<List<Stmt>>, Refusal>
        ensures { (p : SpecPlace) (e : SpecExpr) (ss : SpecList SpecStmt) →
            Reads (λ second. placed_stmt (Stmt.If p e ss second))
            (reading.else_by (reading.stmt depth) p (placed_expr e) (map placed_stmt ss) self.old)
            result self.new }
    {
        if self.is_keyword(keyword::ELSE) {
            tri!(self.expect_keyword(keyword::ELSE));
            let second = tri!(self.stmts(alloc, depth));
            tri!(self.closing(keyword::IF));
            return Ok(Some(second));
        }
        tri!(self.closing(keyword::IF));
        Ok(None)
    }

    /// The bounds of a loop, behind its name.
    #[tactic(auto, unfolding(crate::specs::Parts::loop_bounds))]
    fn loop_bounds(&mut self, alloc: Global) -> Result<(Box<Constant>, Box<Constant>), Refusal>
        ensures { Reads placed_bounds (loop_bounds self.old) result self.new }
    {
        tri!(self.expect_sign(sign::COLON));
        let low = tri!(self.boxed_constant(alloc));
        tri!(self.expect_sign(sign::RANGE));
        let high = tri!(self.boxed_constant(alloc));
        Ok((low, high))
    }

    /// The statements of a loop, up to its end.
    #[cycle(stmt)]
    #[tactic(auto, unfolding(crate::specs::Parts::loop_body, syntax_reading::specs::StmtReading::stmts))]
    fn loop_body(&mut self, alloc: Global, depth: usize) -> Result<List<Stmt>, Refusal>
        ensures { Reads (map placed_stmt) (loop_body (reading.stmt depth) self.old) result self.new }
    {
        tri!(self.expect_keyword(keyword::DO));
        let body = tri!(self.stmts(alloc, depth));
        tri!(self.closing(keyword::FOR));
        Ok(body)
    }

    /// A loop, with `depth` levels of nesting left inside it.
    #[cycle(stmt)]
    #[tactic(auto, using(crate::proofs::Parts::loop_parts))]
    fn for_stmt(&mut self, alloc: Global, depth: usize) -> Result<Stmt, Refusal>
        ensures { Reads placed_stmt (reading.loop_stmt (reading.stmt depth) self.old) result
            self.new }
    {
        let place = tri!(self.expect_keyword(keyword::FOR));
        let (name, name_place) = tri!(self.name(alloc));
        let (low, high) = tri!(self.loop_bounds(alloc));
        let body = tri!(self.loop_body(alloc, depth));
        Ok(Stmt::For {
            place,
            name,
            name_place,
            low,
            high,
            body,
        })
    }
}
