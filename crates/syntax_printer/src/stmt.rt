//! Printing statements.

ghost use Rattle.std.specs.Prelude.{◌≡◌, ◌<◌, [], ◌∷◌, ◌++◌, length, OnOk};
ghost use Rattle.syntax.specs.Spellings.{keywords};
ghost use Rattle.syntax_tree.specs.Placed.{placed_constant, placed_expr, placed_exprs, placed_ref, placed_stmt, placed_stmts};
ghost use Rattle.syntax.specs.Words as w;
ghost use Rattle.syntax_printer.specs.Pages.{put_lines, puts, ended};
ghost use Rattle.syntax_printer.specs.Canonical.{constant_words, expr_words, for_line as for_words, if_line as if_words, in_parens, ref_words, stmt_lines, stmts_lines};

use crate::page::{Page, tri};
use out_of_memory::OutOfMemory;
use syntax::{keyword, sign};
use syntax_tree::{Constant, Expr, List, Name, Ref, Stmt};

impl Page {
    /// A line of a keyword and a name.
    pub fn named_line(&mut self, at: u8, name: &Name) -> Result<(), OutOfMemory>
        requires { at < length keywords }
        ensures { OnOk result (self.new ≡ ended
            (puts self.old (w.keyword at ∷ w.named name.now ∷ []))) }
    {
        tri!(self.keyword(at));
        tri!(self.name(name));
        self.end_line()
    }

    /// A line of one keyword.
    pub fn keyword_line(&mut self, at: u8) -> Result<(), OutOfMemory>
        requires { at < length keywords }
        ensures { OnOk result (self.new ≡ ended (puts self.old (w.keyword at ∷ []))) }
    {
        tri!(self.keyword(at));
        self.end_line()
    }

    /// A line of a keyword and an expression.
    pub fn expr_line(&mut self, at: u8, expr: &Expr) -> Result<(), OutOfMemory>
        requires { at < length keywords }
        ensures { OnOk result (self.new ≡ ended
            (puts self.old (w.keyword at ∷ expr_words (placed_expr expr.now)))) }
    {
        tri!(self.keyword(at));
        tri!(self.expr(expr));
        self.end_line()
    }

    /// The line that ends an `if` or a `for`.
    fn end_keyword(&mut self, at: u8) -> Result<(), OutOfMemory>
        requires { at < length keywords }
        ensures { OnOk result (self.new ≡ ended (puts self.old (w.END ∷ w.keyword at ∷ []))) }
    {
        tri!(self.keyword(keyword::END));
        tri!(self.keyword(at));
        self.end_line()
    }

    /// An entry of a monitor and its arguments.
    fn entry(&mut self, mon: &Name, entry: &Name, args: &List<Expr>) -> Result<(), OutOfMemory>
        ensures { OnOk result (self.new ≡ puts self.old
            (w.named mon.now ∷ w.DOT ∷ w.named entry.now ∷ in_parens (placed_exprs args.now))) }
    {
        tri!(self.name(mon));
        tri!(self.sign(sign::DOT));
        tri!(self.name(entry));
        self.args(args.as_slice())
    }

    #[tactic(auto, using(crate::proofs::Steps::puts_append))]
    fn assign(&mut self, target: &Ref, value: &Expr) -> Result<(), OutOfMemory>
        ensures { OnOk result (self.new ≡ ended
            (puts self.old (ref_words (placed_ref target.now) ++ w.ASSIGN ∷
            expr_words (placed_expr value.now)))) }
    {
        tri!(self.reference(target));
        tri!(self.sign(sign::ASSIGN));
        tri!(self.expr(value));
        self.end_line()
    }

    #[tactic(auto, using(crate::proofs::Steps::puts_append))]
    fn assign_entry(
        &mut self,
        target: &Ref,
        mon: &Name,
        entry: &Name,
        args: &List<Expr>,
    ) -> Result<(), OutOfMemory>
        ensures { OnOk result (self.new ≡ ended
            (puts self.old (ref_words (placed_ref target.now) ++ w.ASSIGN ∷ w.named mon.now ∷
            w.DOT ∷ w.named entry.now ∷ in_parens (placed_exprs args.now)))) }
    {
        tri!(self.reference(target));
        tri!(self.sign(sign::ASSIGN));
        tri!(self.entry(mon, entry, args));
        self.end_line()
    }

    #[tactic(auto, using(crate::proofs::Steps::puts_append))]
    fn assign_empty(&mut self, target: &Ref, cond: &Name) -> Result<(), OutOfMemory>
        ensures { OnOk result (self.new ≡ ended
            (puts self.old (ref_words (placed_ref target.now) ++ w.ASSIGN ∷ w.EMPTY ∷
            w.named cond.now ∷ []))) }
    {
        tri!(self.reference(target));
        tri!(self.sign(sign::ASSIGN));
        self.named_line(keyword::EMPTY, cond)
    }

    /// The line that begins an `if`.
    #[tactic(auto, using(crate::proofs::Steps::puts_append))]
    fn if_line(&mut self, test: &Expr) -> Result<(), OutOfMemory>
        ensures { OnOk result (self.new ≡ ended (puts self.old (if_words (placed_expr test.now)))) }
    {
        tri!(self.keyword(keyword::IF));
        tri!(self.expr(test));
        tri!(self.keyword(keyword::THEN));
        self.end_line()
    }

    /// The line that begins a `for`.
    #[tactic(auto, using(crate::proofs::Steps::puts_append))]
    fn for_line(&mut self, name: &Name, low: &Constant, high: &Constant) -> Result<(), OutOfMemory>
        ensures { OnOk result (self.new ≡ ended
            (puts self.old (for_words name.now (placed_constant low.now)
            (placed_constant high.now)))) }
    {
        tri!(self.keyword(keyword::FOR));
        tri!(self.name(name));
        tri!(self.sign(sign::COLON));
        tri!(self.constant(low));
        tri!(self.sign(sign::RANGE));
        tri!(self.constant(high));
        tri!(self.keyword(keyword::DO));
        self.end_line()
    }

    #[tactic(auto, using(crate::proofs::Steps::puts_append))]
    fn wait(&mut self, cond: &Name, limit: &Constant, number: &Constant) -> Result<(), OutOfMemory>
        ensures { OnOk result (self.new ≡ ended
            (puts self.old (w.WAIT ∷ w.named cond.now ∷ w.NO_LONGER_THAN ∷
            (constant_words (placed_constant limit.now) ++ w.COLON ∷
            constant_words (placed_constant number.now))))) }
    {
        tri!(self.keyword(keyword::WAIT));
        tri!(self.name(cond));
        tri!(self.keyword(keyword::NO_LONGER_THAN));
        tri!(self.constant(limit));
        tri!(self.sign(sign::COLON));
        tri!(self.constant(number));
        self.end_line()
    }

    fn call(&mut self, name: &Name, args: &List<Expr>) -> Result<(), OutOfMemory>
        ensures { OnOk result (self.new ≡ ended
            (puts self.old (w.named name.now ∷ in_parens (placed_exprs args.now)))) }
    {
        tri!(self.name(name));
        tri!(self.args(args.as_slice()));
        self.end_line()
    }

    fn call_entry(&mut self, mon: &Name, entry: &Name, args: &List<Expr>) -> Result<(), OutOfMemory>
        ensures { OnOk result (self.new ≡ ended
            (puts self.old (w.named mon.now ∷ w.DOT ∷ w.named entry.now ∷
            in_parens (placed_exprs args.now)))) }
    {
        tri!(self.entry(mon, entry, args));
        self.end_line()
    }

    fn exit_when(&mut self, test: &Expr) -> Result<(), OutOfMemory>
        ensures { OnOk result (self.new ≡ ended
            (puts self.old (w.EXIT ∷ w.WHEN ∷ expr_words (placed_expr test.now)))) }
    {
        tri!(self.keyword(keyword::EXIT));
        self.expr_line(keyword::WHEN, test)
    }

    fn get(&mut self, device: &Name, target: &Ref) -> Result<(), OutOfMemory>
        ensures { OnOk result (self.new ≡ ended
            (puts self.old (w.GET ∷ w.named device.now ∷ ref_words (placed_ref target.now)))) }
    {
        tri!(self.keyword(keyword::GET));
        tri!(self.name(device));
        tri!(self.reference(target));
        self.end_line()
    }

    fn put(&mut self, device: &Name, value: &Expr) -> Result<(), OutOfMemory>
        ensures { OnOk result (self.new ≡ ended
            (puts self.old (w.PUT ∷ w.named device.now ∷ expr_words (placed_expr value.now)))) }
    {
        tri!(self.keyword(keyword::PUT));
        tri!(self.name(device));
        tri!(self.expr(value));
        self.end_line()
    }

    fn except(&mut self, number: &Constant) -> Result<(), OutOfMemory>
        ensures { OnOk result (self.new ≡ ended
            (puts self.old (w.EXCEPT ∷ constant_words (placed_constant number.now)))) }
    {
        tri!(self.keyword(keyword::EXCEPT));
        tri!(self.constant(number));
        self.end_line()
    }

    /// The statement of one line, or the one that has others in it.
    #[cycle(stmt)]
    fn stmt(&mut self, stmt: &Stmt) -> Result<(), OutOfMemory>
        ensures { OnOk result (self.new ≡ put_lines self.old (stmt_lines (placed_stmt stmt.now))) }
    {
        match stmt {
            Stmt::Assign { target, value } => self.assign(target, value),
            Stmt::AssignEntry {
                target,
                mon,
                entry,
                args,
                ..
            } => self.assign_entry(target, mon, entry, args),
            Stmt::AssignEmpty { target, cond, .. } => self.assign_empty(target, cond),
            Stmt::Call { name, args, .. } => self.call(name, args),
            Stmt::CallEntry {
                mon,
                entry,
                args,
                ..
            } => self.call_entry(mon, entry, args),
            Stmt::If {
                test,
                first,
                second,
                ..
            } => {
                self.if_line(test)?;
                self.stmts(first.as_slice())?;
                if let Some(second) = second {
                    self.keyword_line(keyword::ELSE)?;
                    self.stmts(second.as_slice())?;
                }
                self.end_keyword(keyword::IF)
            }
            Stmt::For {
                name,
                low,
                high,
                body,
                ..
            } => {
                self.for_line(name, low, high)?;
                self.stmts(body.as_slice())?;
                self.end_keyword(keyword::FOR)
            }
            Stmt::ExitWhen { test, .. } => self.exit_when(test),
            Stmt::Get { device, target, .. } => self.get(device, target),
            Stmt::Put { device, value, .. } => self.put(device, value),
            Stmt::Wait {
                cond,
                limit,
                number,
                ..
            } => self.wait(cond, limit, number),
            Stmt::Signal { cond, .. } => self.named_line(keyword::SIGNAL, cond),
            Stmt::Broadcast { cond, .. } => self.named_line(keyword::BROADCAST, cond),
            Stmt::Except { number, .. } => self.except(number),
            Stmt::Assert { test, .. } => self.expr_line(keyword::ASSERT, test),
        }
    }

    /// Statements, one after another.
    #[cycle(stmt)]
    pub fn stmts(&mut self, stmts: &[Stmt]) -> Result<(), OutOfMemory>
        ensures { OnOk result (self.new ≡ put_lines self.old
            (stmts_lines (placed_stmts stmts.now))) }
    {
        for stmt in stmts {
            self.stmt(stmt)?;
        }
        Ok(())
    }
}
