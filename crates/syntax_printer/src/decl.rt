//! Printing declarations and programs.

ghost use Rattle.std.specs.Prelude.{◌≡◌, ◌<◌, ◌∷◌, ◌++◌, length, map, OnOk};
ghost use Rattle.syntax.specs.Spellings.{keywords};
ghost use Rattle.syntax_tree.specs.Placed.{optional, placed, placed_activation, placed_constant, placed_decl, placed_expr, placed_handler, placed_kind, placed_member, placed_monitor, placed_param, placed_process, placed_routine, placed_routine_kind, placed_scalar, placed_var};
ghost use Rattle.syntax.specs.Words as w;
ghost use Rattle.syntax.specs.Grammar.{kind_word, way_word};
ghost use Rattle.syntax_printer.specs.Pages.{ended, put_lines, puts};
ghost use Rattle.syntax_printer.specs.Canonical.{activation_words, constant_words, deadline_words, decl_lines, end_line as end_words, entry_lines, first_words, handler_lines, handler_words, header as header_words, kind_line, lines_of, listed, member_lines, monitor_lines, param_words, process_lines, process_words, program_lines, rest_of_routine, result_words, return_lines, routine_lines, scalar_words, var_lines};

use crate::page::{Page, tri};
use out_of_memory::OutOfMemory;
use syntax::{keyword, sign};
use syntax_tree::{
    Constant, Declaration, Expr, Handler, Member, Monitor, Name, Param, Process, Program, Routine,
    RoutineKind, Scalar, Trigger, Type, Var,
};

/// The keyword of a device's direction.
fn way(is_out: bool) -> u8
    ensures word { w.keyword result ≡ way_word is_out }
    ensures within { result < length keywords }
{
    if is_out { keyword::OUT } else { keyword::IN }
}

/// The keyword that begins a routine.
fn kind_keyword(kind: RoutineKind) -> u8
    ensures word { w.keyword result ≡ kind_word (placed_routine_kind kind) }
    ensures within { result < length keywords }
{
    match kind {
        RoutineKind::Procedure => keyword::PROCEDURE,
        RoutineKind::Function => keyword::FUNCTION,
    }
}

impl Page {
    /// The line that ends a declaration or the program.
    fn end_name(&mut self, name: &Name) -> Result<(), OutOfMemory>
        ensures { OnOk result (self.new ≡ ended (puts self.old (end_words name.now))) }
    {
        self.named_line(keyword::END, name)
    }

    #[tactic(auto, using(crate::proofs::Steps::puts_append))]
    fn range(&mut self, low: &Constant, high: &Constant) -> Result<(), OutOfMemory>
        ensures { OnOk result (self.new ≡ puts self.old
            (constant_words (placed_constant low.now) ++ w.RANGE ∷
            constant_words (placed_constant high.now))) }
    {
        tri!(self.constant(low));
        tri!(self.sign(sign::RANGE));
        self.constant(high)
    }

    fn scalar(&mut self, scalar: &Scalar) -> Result<(), OutOfMemory>
        ensures { OnOk result (self.new ≡ puts self.old (scalar_words (placed_scalar scalar.now))) }
    {
        match scalar {
            Scalar::Int => self.keyword(keyword::INT),
            Scalar::Boolean => self.keyword(keyword::BOOLEAN),
            Scalar::Subrange { low, high } => self.range(low, high),
        }
    }

    #[tactic(auto, using(crate::proofs::Steps::puts_append))]
    fn array(
        &mut self,
        low: &Constant,
        high: &Constant,
        element: &Scalar,
    ) -> Result<(), OutOfMemory>
        ensures { OnOk result (self.new ≡ puts self.old
            (w.ARRAY ∷ (constant_words (placed_constant low.now) ++ w.RANGE ∷
            (constant_words (placed_constant high.now) ++ w.OF ∷
            scalar_words (placed_scalar element.now))))) }
    {
        tri!(self.keyword(keyword::ARRAY));
        tri!(self.constant(low));
        tri!(self.sign(sign::RANGE));
        tri!(self.constant(high));
        tri!(self.keyword(keyword::OF));
        self.scalar(element)
    }

    fn kind(&mut self, kind: &Type) -> Result<(), OutOfMemory>
        ensures { OnOk result (self.new ≡ puts self.old (kind_line (placed_kind kind.now))) }
    {
        match kind {
            Type::Scalar(scalar) => self.scalar(scalar),
            Type::Array { low, high, element } => self.array(low, high, element),
        }
    }

    fn var(&mut self, var: &Var) -> Result<(), OutOfMemory>
        ensures { OnOk result (self.new ≡ put_lines self.old (var_lines (placed_var var.now))) }
    {
        tri!(self.keyword(keyword::VAR));
        tri!(self.name(&var.name));
        tri!(self.sign(sign::COLON));
        tri!(self.kind(&var.kind));
        self.end_line()
    }

    fn vars(&mut self, vars: &[Var]) -> Result<(), OutOfMemory>
        ensures { OnOk result (self.new ≡ put_lines self.old
            (lines_of var_lines (map placed_var vars.now))) }
    {
        for var in vars {
            self.var(var)?;
        }
        Ok(())
    }

    fn param(&mut self, param: &Param) -> Result<(), OutOfMemory>
        ensures { OnOk result (self.new ≡ puts self.old (param_words (placed_param param.now))) }
    {
        tri!(self.name(&param.name));
        tri!(self.sign(sign::COLON));
        self.scalar(&param.kind)
    }

    /// Parameters, with commas between them.
    #[tactic(auto, using(crate::proofs::Steps::puts_append))]
    fn params(&mut self, params: &[Param]) -> Result<(), OutOfMemory>
        ensures { OnOk result (self.new ≡ puts self.old
            (listed param_words (map placed_param params.now))) }
    {
        let Some((first, more)) = params.split_first() else {
            return Ok(());
        };
        self.param(first)?;
        for param in more {
            self.sign(sign::COMMA)?;
            self.param(param)?;
        }
        Ok(())
    }

    /// The type of a function's result.
    fn result(&mut self, kind: &Option<Scalar>) -> Result<(), OutOfMemory>
        ensures { OnOk result (self.new ≡ puts self.old
            (result_words (optional placed_scalar kind.now))) }
    {
        if let Some(scalar) = kind {
            tri!(self.keyword(keyword::RETURNS));
            tri!(self.scalar(scalar));
        }
        Ok(())
    }

    /// The name of a routine, its parameters and the type of its result, behind an `entry` or not.
    #[tactic(auto, using(crate::proofs::Steps::puts_append))]
    fn header(&mut self, routine: &Routine) -> Result<(), OutOfMemory>
        ensures { OnOk result (self.new ≡ ended
            (puts self.old (header_words (placed_routine routine.now)))) }
    {
        tri!(self.keyword(kind_keyword(routine.kind)));
        tri!(self.name(&routine.name));
        tri!(self.sign(sign::LEFT_PAREN));
        tri!(self.params(routine.params.as_slice()));
        tri!(self.sign(sign::RIGHT_PAREN));
        tri!(self.result(&routine.result));
        self.end_line()
    }

    /// The line of a function's result.
    fn value(&mut self, value: &Option<Expr>) -> Result<(), OutOfMemory>
        ensures { OnOk result (self.new ≡ put_lines self.old
            (return_lines (optional placed_expr value.now))) }
    {
        if let Some(expr) = value {
            tri!(self.expr_line(keyword::RETURN, expr));
        }
        Ok(())
    }

    /// What follows the header of a routine.
    #[tactic(auto, using(crate::proofs::Steps::put_lines_append))]
    fn rest_of(&mut self, routine: &Routine) -> Result<(), OutOfMemory>
        ensures { OnOk result (self.new ≡ put_lines self.old
            (rest_of_routine (placed_routine routine.now))) }
    {
        tri!(self.vars(routine.vars.as_slice()));
        tri!(self.keyword_line(keyword::BEGIN));
        tri!(self.stmts(routine.body.as_slice()));
        tri!(self.value(&routine.value));
        self.end_name(&routine.close)
    }

    fn routine(&mut self, routine: &Routine) -> Result<(), OutOfMemory>
        ensures { OnOk result (self.new ≡ put_lines self.old
            (routine_lines (placed_routine routine.now))) }
    {
        tri!(self.header(routine));
        self.rest_of(routine)
    }

    fn routines(&mut self, routines: &[Routine]) -> Result<(), OutOfMemory>
        ensures { OnOk result (self.new ≡ put_lines self.old
            (lines_of routine_lines (map placed_routine routines.now))) }
    {
        for routine in routines {
            self.routine(routine)?;
        }
        Ok(())
    }

    fn entry_routine(&mut self, routine: &Routine) -> Result<(), OutOfMemory>
        ensures { OnOk result (self.new ≡ put_lines self.old
            (entry_lines (placed_routine routine.now))) }
    {
        tri!(self.keyword(keyword::ENTRY));
        tri!(self.header(routine));
        self.rest_of(routine)
    }

    fn entries(&mut self, entries: &[Routine]) -> Result<(), OutOfMemory>
        ensures { OnOk result (self.new ≡ put_lines self.old
            (lines_of entry_lines (map placed_routine entries.now))) }
    {
        for entry in entries {
            self.entry_routine(entry)?;
        }
        Ok(())
    }

    fn member(&mut self, member: &Member) -> Result<(), OutOfMemory>
        ensures { OnOk result (self.new ≡ put_lines self.old
            (member_lines (placed_member member.now))) }
    {
        match member {
            Member::Var(var) => self.var(var),
            Member::Condition { name, .. } => self.named_line(keyword::CONDITION, name),
        }
    }

    fn members(&mut self, members: &[Member]) -> Result<(), OutOfMemory>
        ensures { OnOk result (self.new ≡ put_lines self.old
            (lines_of member_lines (map placed_member members.now))) }
    {
        for member in members {
            self.member(member)?;
        }
        Ok(())
    }

    #[tactic(auto, using(crate::proofs::Steps::put_lines_append))]
    fn monitor(&mut self, monitor: &Monitor) -> Result<(), OutOfMemory>
        ensures { OnOk result (self.new ≡ put_lines self.old
            (monitor_lines (placed_monitor monitor.now))) }
    {
        tri!(self.named_line(keyword::MONITOR, &monitor.name));
        tri!(self.members(monitor.members.as_slice()));
        tri!(self.entries(monitor.entries.as_slice()));
        self.end_name(&monitor.close)
    }

    /// The first activation of a process, where it is said.
    fn first(&mut self, first: &Option<Constant>) -> Result<(), OutOfMemory>
        ensures { OnOk result (self.new ≡ puts self.old
            (first_words (optional placed_constant first.now))) }
    {
        if let Some(at) = first {
            tri!(self.keyword(keyword::FIRST));
            tri!(self.keyword(keyword::ACTIVATION));
            tri!(self.keyword(keyword::AT_TIME));
            tri!(self.constant(at));
        }
        Ok(())
    }

    /// The deadline of a process, where it is told.
    fn deadline(&mut self, deadline: &Option<Constant>) -> Result<(), OutOfMemory>
        ensures { OnOk result (self.new ≡ puts self.old
            (deadline_words (optional placed_constant deadline.now))) }
    {
        if let Some(ticks) = deadline {
            tri!(self.deadline_word());
            tri!(self.constant(ticks));
        }
        Ok(())
    }

    /// The frame of a process, and its deadline where it is told.
    #[tactic(auto, using(crate::proofs::Steps::puts_append))]
    fn times(&mut self, frame: &Constant, deadline: &Option<Constant>) -> Result<(), OutOfMemory>
        ensures { OnOk result (self.new ≡ puts self.old
            (w.FRAME ∷ (constant_words (placed_constant frame.now) ++
            deadline_words (optional placed_constant deadline.now)))) }
    {
        tri!(self.keyword(keyword::FRAME));
        tri!(self.constant(frame));
        self.deadline(deadline)
    }

    #[tactic(auto, using(crate::proofs::Steps::puts_append))]
    fn activation(&mut self, activation: &Trigger) -> Result<(), OutOfMemory>
        ensures { OnOk result (self.new ≡ puts self.old
            (activation_words (placed_activation activation.now))) }
    {
        match activation {
            Trigger::Periodic {
                frame,
                deadline,
                first,
            } => {
                tri!(self.keyword(keyword::PERIODIC));
                tri!(self.times(frame, deadline));
                self.first(first)
            }
            Trigger::AtEvent {
                event,
                frame,
                deadline,
                ..
            } => {
                tri!(self.keyword(keyword::AT_EVENT));
                tri!(self.name(event));
                self.times(frame, deadline)
            }
        }
    }

    /// The numbers of a handler, with commas between them.
    #[tactic(auto, using(crate::proofs::Steps::puts_append))]
    fn numbers(&mut self, numbers: &[Constant]) -> Result<(), OutOfMemory>
        ensures { OnOk result (self.new ≡ puts self.old
            (listed constant_words (map placed_constant numbers.now))) }
    {
        let Some((first, more)) = numbers.split_first() else {
            return Ok(());
        };
        self.constant(first)?;
        for number in more {
            self.sign(sign::COMMA)?;
            self.constant(number)?;
        }
        Ok(())
    }

    /// The line that begins a handler.
    #[tactic(auto, using(crate::proofs::Steps::puts_append))]
    fn handler_line(&mut self, numbers: &[Constant]) -> Result<(), OutOfMemory>
        ensures { OnOk result (self.new ≡ ended
            (puts self.old (handler_words (map placed_constant numbers.now)))) }
    {
        tri!(self.keyword(keyword::HANDLER));
        tri!(self.sign(sign::LEFT_PAREN));
        tri!(self.numbers(numbers));
        tri!(self.sign(sign::RIGHT_PAREN));
        self.end_line()
    }

    fn handler(&mut self, handler: &Option<Handler>) -> Result<(), OutOfMemory>
        ensures { OnOk result (self.new ≡ put_lines self.old
            (handler_lines (optional placed_handler handler.now))) }
    {
        if let Some(handler) = handler {
            tri!(self.handler_line(handler.numbers.as_slice()));
            tri!(self.stmts(handler.body.as_slice()));
        }
        Ok(())
    }

    /// The line that begins a process.
    fn process_line(&mut self, process: &Process) -> Result<(), OutOfMemory>
        ensures { OnOk result (self.new ≡ ended
            (puts self.old (process_words (placed_process process.now)))) }
    {
        tri!(self.keyword(keyword::PROCESS));
        tri!(self.name(&process.name));
        tri!(self.sign(sign::COLON));
        tri!(self.activation(&process.activation));
        self.end_line()
    }

    #[tactic(auto, using(crate::proofs::Steps::put_lines_append))]
    fn process(&mut self, process: &Process) -> Result<(), OutOfMemory>
        ensures { OnOk result (self.new ≡ put_lines self.old
            (process_lines (placed_process process.now))) }
    {
        tri!(self.process_line(process));
        tri!(self.vars(process.vars.as_slice()));
        tri!(self.routines(process.routines.as_slice()));
        tri!(self.keyword_line(keyword::BEGIN));
        tri!(self.stmts(process.body.as_slice()));
        tri!(self.handler(&process.handler));
        self.end_name(&process.close)
    }

    fn decl(&mut self, decl: &Declaration) -> Result<(), OutOfMemory>
        ensures { OnOk result (self.new ≡ put_lines self.old (decl_lines (placed_decl decl.now))) }
    {
        match decl {
            Declaration::Const { name, value, .. } => {
                tri!(self.keyword(keyword::CONST));
                tri!(self.name(name));
                tri!(self.sign(sign::ASSIGN));
                tri!(self.constant(value));
                self.end_line()
            }
            Declaration::Device { name, is_out, .. } => {
                tri!(self.keyword(keyword::DEVICE));
                tri!(self.name(name));
                tri!(self.sign(sign::COLON));
                self.keyword_line(way(*is_out))
            }
            Declaration::Event { name, .. } => self.named_line(keyword::EVENT, name),
            Declaration::Routine(routine) => self.routine(routine),
            Declaration::Monitor(monitor) => self.monitor(monitor),
            Declaration::Process(process) => self.process(process),
        }
    }

    fn decls(&mut self, decls: &[Declaration]) -> Result<(), OutOfMemory>
        ensures { OnOk result (self.new ≡ put_lines self.old
            (lines_of decl_lines (map placed_decl decls.now))) }
    {
        for decl in decls {
            self.decl(decl)?;
        }
        Ok(())
    }

    /// The whole program.
    #[tactic(auto, using(crate::proofs::Steps::put_lines_append))]
    pub fn prog(&mut self, prog: &Program) -> Result<(), OutOfMemory>
        ensures { OnOk result (self.new ≡ put_lines self.old (program_lines (placed prog.now))) }
    {
        tri!(self.named_line(keyword::PROGRAM, &prog.name));
        tri!(self.decls(prog.decls.as_slice()));
        self.end_name(&prog.close)
    }
}
