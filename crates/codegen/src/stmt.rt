//! The code of statements.

ghost use Rattle.std.specs.Prelude.{◌≡◌, OnOk, length, pos};
ghost use Rattle.syntax_tree.specs.Plain.{loop as loop_of};
ghost use Rattle.syntax_tree.specs.Placed.{placed_constant, placed_stmts, plain_constant, plain_stmts};
ghost use Rattle.source_semantics.specs.Names.{device_number};
ghost use Rattle.code_spec.specs.Emits.{condition_of, monitor_of};
ghost use Rattle.code_spec.specs.Numbering.{entry_in};
ghost use Rattle.machine_isa.specs.declared.instr.Instr.TheVariants as i;
ghost use Rattle.codegen_spec.specs.Told.{fit as fitting, inside, told_callee, within};
ghost use Rattle.codegen_spec.specs.Made.{call_out, condition_told, count_told, push as push_of, choice as choice_of, closed, one_arm, stmt_out, waiting};
ghost use Rattle.codegen.specs.Of.{args_of, expr_of, index_of, put_of, stmt_of, stmts_of, store_of};

use crate::code_builder::CodeBuilder;
use crate::errors::tri;
use code_layout::fit_word;
use codegen_branches::fit;
use codegen_spec::{Lookup, Loop, Owner};
use image_format::Seg;
use machine_isa::Instr;
use out_of_memory::OutOfMemory;
use syntax_tree::{Constant, Expr, List, Name, Ref, Stmt};

/// A constant that is used as a number of ticks or as an exception number.
fn count<L: Lookup>(names: &L, constant: &Constant) -> i32
    ensures { let g = L.program names.now in
        result ≡ count_told g (plain_constant (placed_constant constant.now)) }
{
    let value = names.value(constant);
    if value < 0 { 0 } else { value }
}

/// The number of the monitor whose text it is.
fn monitor<L: Lookup>(names: &L) -> usize
    ensures { result ≡ monitor_of (L.scope names.now).owner }
{
    match names.owner() {
        Owner::Monitor { number } => number,
        Owner::Program | Owner::Process { .. } => 0,
    }
}

/// The arguments of a call.
fn exprs(list: &List<Expr>) -> &[Expr]
    ensures { result.now ≡ list.now }
{
    list.as_slice()
}

/// The statements of an arm or a body.
fn listed(list: &List<Stmt>) -> &[Stmt]
    ensures { result.now ≡ list.now }
{
    list.as_slice()
}

impl CodeBuilder {
    fn assign<L: Lookup>(
        &mut self,
        names: &L,
        loops: &[Loop],
        target: &Ref,
        value: &Expr,
    ) -> Result<(), OutOfMemory>
        ensures { let g = L.program names.now in let c = inside loops.now (L.scope names.now) in
            OnOk result (self.new ≡ put_of g c target.now (expr_of g c value.now (index_of g c
            target.now self.old))) }
    {
        tri!(self.index(names, loops, target));
        tri!(self.expr(names, loops, value));
        self.put(names, loops, target)
    }

    fn assign_entry<L: Lookup>(
        &mut self,
        names: &L,
        loops: &[Loop],
        target: &Ref,
        mon: &Name,
        entry: &Name,
        args: &[Expr],
    ) -> Result<(), OutOfMemory>
        ensures { let g = L.program names.now in let c = inside loops.now (L.scope names.now) in
            OnOk result (self.new ≡ put_of g c target.now (call_out (told_callee g (entry_in g
            mon.now entry.now)) (λ rs. args_of g c args.now rs (index_of g c target.now self.old))
            (index_of g c target.now self.old))) }
    {
        tri!(self.index(names, loops, target));
        tri!(self.called(names, loops, names.entry(mon, entry), args));
        self.put(names, loops, target)
    }

    #[tactic(auto, using(crate::proofs::Steps::inside_owner))]
    fn assign_empty<L: Lookup>(
        &mut self,
        names: &L,
        loops: &[Loop],
        target: &Ref,
        cond: &Name,
    ) -> Result<(), OutOfMemory>
        ensures { let g = L.program names.now in let c = inside loops.now (L.scope names.now) in
            OnOk result (self.new ≡ store_of g c target.now (push_of (index_of g c target.now
            self.old) (i.Empty (condition_told g c cond.now)))) }
    {
        tri!(self.index(names, loops, target));
        tri!(self.push(Instr::Empty {
            condition: names.condition(cond),
        }));
        self.store(names, loops, target)
    }

    fn get<L: Lookup>(
        &mut self,
        names: &L,
        loops: &[Loop],
        device: &Name,
        target: &Ref,
    ) -> Result<(), OutOfMemory>
        ensures { let g = L.program names.now in let c = inside loops.now (L.scope names.now) in
            OnOk result (self.new ≡ put_of g c target.now (push_of (index_of g c target.now
            self.old) (i.In (fitting (pos (device_number g device.now)))))) }
    {
        tri!(self.index(names, loops, target));
        tri!(self.push(Instr::In {
            device: names.device(device),
        }));
        self.put(names, loops, target)
    }

    fn output<L: Lookup>(
        &mut self,
        names: &L,
        loops: &[Loop],
        device: &Name,
        value: &Expr,
    ) -> Result<(), OutOfMemory>
        ensures { let g = L.program names.now in let c = inside loops.now (L.scope names.now) in
            OnOk result (self.new ≡ push_of (expr_of g c value.now self.old) (i.Out (fitting (pos
            (device_number g device.now))))) }
    {
        tri!(self.expr(names, loops, value));
        self.push(Instr::Out {
            device: names.device(device),
        })
    }

    /// A wait for a condition, with the way back into the monitor of this number.
    fn waiting(
        &mut self,
        condition: i32,
        limit: i32,
        number: i32,
        monitor: usize,
    ) -> Result<(), OutOfMemory>
        ensures { OnOk result (self.new ≡ waiting condition limit number monitor self.old) }
    {
        let before = tri!(self.take());
        tri!(self.push(Instr::Wait {
            condition,
            limit,
            number,
        }));
        tri!(self.push(Instr::Reenter {
            monitor: fit(monitor),
        }));
        self.join(before, Seg::Wait)
    }

    /// A wait, with the way back into the monitor.
    fn wait<L: Lookup>(
        &mut self,
        names: &L,
        cond: &Name,
        limit: &Constant,
        number: &Constant,
    ) -> Result<(), OutOfMemory>
        ensures { let g = L.program names.now in let c = L.scope names.now in
            OnOk result (self.new ≡ waiting (condition_told g c cond.now) (count_told g
            (plain_constant (placed_constant limit.now))) (count_told g (plain_constant
            (placed_constant number.now))) (monitor_of c.owner) self.old) }
    {
        let condition = names.condition(cond);
        let limit = count(names, limit);
        let number = count(names, number);
        self.waiting(condition, limit, number, monitor(names))
    }

    fn signal<L: Lookup>(&mut self, names: &L, cond: &Name) -> Result<(), OutOfMemory>
        ensures { let g = L.program names.now in let c = L.scope names.now in
            OnOk result (self.new ≡ push_of self.old (i.Signal (condition_told g c cond.now))) }
    {
        self.push(Instr::Signal {
            condition: names.condition(cond),
        })
    }

    fn broadcast<L: Lookup>(&mut self, names: &L, cond: &Name) -> Result<(), OutOfMemory>
        ensures { let g = L.program names.now in let c = L.scope names.now in
            OnOk result (self.new ≡ push_of self.old (i.Broadcast (condition_told g c cond.now))) }
    {
        self.push(Instr::Broadcast {
            condition: names.condition(cond),
        })
    }

    /// The code of a loop's body, whose variable is at this word.
    #[cycle(stmt)]
    #[tactic(auto, using(crate::proofs::Steps::inside_more))]
    fn body<L: Lookup>(
        &mut self,
        names: &L,
        loops: &mut Vec<Loop>,
        name: &Name,
        word: u128,
        body: &[Stmt],
    ) -> Result<(), OutOfMemory>
        ensures out { let g = L.program names.now in
            let c = inside loops.old.items (L.scope names.now) in
            OnOk result (self.new ≡ stmts_of g (within c name.now word) body.now self.old) }
        ensures loops { OnOk result (loops.new.items ≡ loops.old.items) }
    {
        let name = tri!(Name::new(self.alloc, name.as_bytes()));
        loops.push(Loop { name, word })?;
        tri!(self.stmts(names, loops, body));
        loops.pop();
        Ok(())
    }

    /// A choice with one arm, behind its condition.
    #[cycle(stmt)]
    fn choice<L: Lookup>(
        &mut self,
        names: &L,
        loops: &mut Vec<Loop>,
        first: &[Stmt],
    ) -> Result<(), OutOfMemory>
        ensures out { let g = L.program names.now in
            let c = inside loops.old.items (L.scope names.now) in
            OnOk result (self.new ≡ one_arm (length self.old.code) (closed self.old)
            (stmts_of g c first.now (choice_of self.old))) }
        ensures loops { OnOk result (loops.new.items ≡ loops.old.items) }
    {
        let at = self.code.len();
        let before = tri!(self.begin_choice());
        tri!(self.stmts(names, loops, first));
        self.end_one_arm(at, before)
    }

    /// A loop, whose variable has the next word of the frame.
    #[cycle(stmt)]
    fn repetition<L: Lookup>(
        &mut self,
        names: &L,
        loops: &mut Vec<Loop>,
        name: &Name,
        low: &Constant,
        high: &Constant,
        body: &[Stmt],
    ) -> Result<(), OutOfMemory>
        ensures out { let g = L.program names.now in
            let c = inside loops.old.items (L.scope names.now) in
            OnOk result (self.new ≡ stmt_out g c (loop_of name.now (plain_constant (placed_constant
            low.now)) (plain_constant (placed_constant high.now)) (plain_stmts (placed_stmts
            body.now))) self.old) }
        ensures loops { OnOk result (loops.new.items ≡ loops.old.items) }
    {
        let word = self.word;
        let (turns, before) = tri!(self.begin_turns(names, low, high));
        let start = self.code.len();
        tri!(self.body(names, loops, name, word, body));
        tri!(self.step(fit_word(word)));
        self.end_loop(turns, start, before)
    }

    /// The code of a statement, which these loops are around, the outermost first.
    #[cycle(stmt)]
    fn stmt<L: Lookup>(
        &mut self,
        names: &L,
        loops: &mut Vec<Loop>,
        stmt: &Stmt,
    ) -> Result<(), OutOfMemory>
        ensures out { let g = L.program names.now in
            let c = inside loops.old.items (L.scope names.now) in
            OnOk result (self.new ≡ stmt_of g c stmt.now self.old) }
        ensures loops { OnOk result (loops.new.items ≡ loops.old.items) }
    {
        let around = loops.as_slice();
        match stmt {
            Stmt::Assign { target, value } => self.assign(names, around, target, value),
            Stmt::AssignEntry {
                target,
                mon,
                entry,
                args,
                ..
            } => self.assign_entry(names, around, target, mon, entry, exprs(args)),
            Stmt::AssignEmpty { target, cond, .. } => {
                self.assign_empty(names, around, target, cond)
            }
            Stmt::Call { name, args, .. } => {
                self.called(names, around, names.routine(name), exprs(args))
            }
            Stmt::CallEntry {
                mon,
                entry,
                args,
                ..
            } => self.called(names, around, names.entry(mon, entry), exprs(args)),
            Stmt::Get { device, target, .. } => self.get(names, around, device, target),
            Stmt::Put { device, value, .. } => self.output(names, around, device, value),
            Stmt::Wait {
                cond,
                limit,
                number,
                ..
            } => self.wait(names, cond, limit, number),
            Stmt::Signal { cond, .. } => self.signal(names, cond),
            Stmt::Broadcast { cond, .. } => self.broadcast(names, cond),
            Stmt::Except { number, .. } => self.push(Instr::Raise {
                number: count(names, number),
            }),
            Stmt::Assert { test, .. } => {
                tri!(self.expr(names, around, test));
                self.assertion()
            }
            Stmt::ExitWhen { test, .. } => {
                tri!(self.expr(names, around, test));
                self.exit()
            }
            Stmt::If {
                test,
                first,
                second,
                ..
            } => {
                tri!(self.expr(names, around, test));
                match second {
                    None => self.choice(names, loops, listed(first)),
                    Some(second) => {
                        let at = self.code.len();
                        let before = tri!(self.begin_choice());
                        tri!(self.stmts(names, loops, listed(first)));
                        let mid = self.code.len();
                        let made = tri!(self.begin_second(at));
                        tri!(self.stmts(names, loops, listed(second)));
                        self.end_two_arms(mid, before, made)
                    }
                }
            }
            Stmt::For {
                name,
                low,
                high,
                body,
                ..
            } => self.repetition(names, loops, name, low, high, listed(body)),
        }
    }

    /// The code of statements, one after another.
    #[cycle(stmt)]
    fn stmts<L: Lookup>(
        &mut self,
        names: &L,
        loops: &mut Vec<Loop>,
        stmts: &[Stmt],
    ) -> Result<(), OutOfMemory>
        ensures out { let g = L.program names.now in
            let c = inside loops.old.items (L.scope names.now) in
            OnOk result (self.new ≡ stmts_of g c stmts.now self.old) }
        ensures loops { OnOk result (loops.new.items ≡ loops.old.items) }
    {
        for stmt in stmts {
            tri!(self.stmt(names, loops, stmt));
        }
        Ok(())
    }

    /// The code of statements that no loop is around.
    pub fn statements<L: Lookup>(&mut self, names: &L, stmts: &[Stmt]) -> Result<(), OutOfMemory>
        ensures { let g = L.program names.now in let c = L.scope names.now in
            OnOk result (self.new ≡ stmts_of g c stmts.now self.old) }
    {
        let mut loops = Vec::new(self.alloc);
        self.stmts(names, &mut loops, stmts)
    }
}
