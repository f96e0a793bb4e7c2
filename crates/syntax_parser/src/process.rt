//! Reading processes.

ghost use Rattle.std.specs.Prelude.{◌≡◌, map};
ghost use Rattle.syntax_tree.specs.Placed.{placed_constant, placed_activation, placed_handler, placed_process, optional};
ghost use Rattle.syntax.specs.Words.{COMMA};
ghost use Rattle.syntax.specs.Grammar.{MOST_LEVELS};
ghost use Rattle.syntax_reading.specs.ExprReading.{many, is_at, behind_comma, listed, constant as constant_at};
ghost use Rattle.syntax_reading.specs.Reading as reading;
ghost use Rattle.syntax_parser.specs.Parts.{process_code, placed_process_code, process_end, placed_process_end, process_rest, placed_process_rest, periodic, at_event};
ghost use Rattle.syntax_parser.specs.Reads.{Reads, with_front};

use crate::fault::{Refusal, made, tri};
use crate::parser::Parser;
use std::alloc::Global;
use syntax::{keyword, sign};
use syntax_tree::{Constant, Handler, List, Name, Place, Process, Routine, Stmt, Trigger, Var};

#[derive(Drop)]
struct ProcessCode {
    vars: List<Var>,
    routines: List<Routine>,
    body: List<Stmt>,
}

/// What stands behind the body of a process.
#[derive(Drop)]
struct ProcessEnd {
    handler: Option<Handler>,
    close: Name,
    close_place: Place,
}

impl Parser<'_> {
    /// The first activation, where it is said.
    #[tactic(auto, unfolding(syntax_reading::specs::Reading::first))]
    fn first(&mut self, alloc: Global) -> Result<Option<Constant>, Refusal>
        ensures { Reads (optional placed_constant) (reading.first self.old) result self.new }
    {
        if self.is_keyword(keyword::FIRST) {
            tri!(self.expect_keyword(keyword::FIRST));
            tri!(self.expect_keyword(keyword::ACTIVATION));
            tri!(self.expect_keyword(keyword::AT_TIME));
            let first = tri!(self.constant(alloc));
            return Ok(Some(first));
        }
        Ok(None)
    }

    /// The deadline, where it is said.
    #[tactic(auto, unfolding(syntax_reading::specs::Reading::deadline))]
    fn deadline(&mut self, alloc: Global) -> Result<Option<Constant>, Refusal>
        ensures { Reads (optional placed_constant) (reading.deadline self.old) result self.new }
    {
        if self.is_deadline() {
            tri!(self.expect_deadline());
            let deadline = tri!(self.constant(alloc));
            return Ok(Some(deadline));
        }
        Ok(None)
    }

    /// An activation at each frame.
    #[tactic(auto, unfolding(crate::specs::Parts::periodic))]
    fn periodic(&mut self, alloc: Global) -> Result<Trigger, Refusal>
        ensures { Reads placed_activation (periodic self.old) result self.new }
    {
        tri!(self.expect_keyword(keyword::PERIODIC));
        tri!(self.expect_keyword(keyword::FRAME));
        let frame = tri!(self.constant(alloc));
        let deadline = tri!(self.deadline(alloc));
        let first = tri!(self.first(alloc));
        Ok(Trigger::Periodic {
            frame,
            deadline,
            first,
        })
    }

    /// An activation at an event.
    #[tactic(auto, unfolding(crate::specs::Parts::at_event))]
    fn at_event(&mut self, alloc: Global) -> Result<Trigger, Refusal>
        ensures { Reads placed_activation (at_event self.old) result self.new }
    {
        tri!(self.expect_keyword(keyword::AT_EVENT));
        let (event, event_place) = tri!(self.name(alloc));
        tri!(self.expect_keyword(keyword::FRAME));
        let frame = tri!(self.constant(alloc));
        let deadline = tri!(self.deadline(alloc));
        Ok(Trigger::AtEvent {
            event,
            event_place,
            frame,
            deadline,
        })
    }

    #[tactic(auto, unfolding(syntax_reading::specs::Reading::activation, crate::specs::Parts::periodic, crate::specs::Parts::at_event))]
    fn activation(&mut self, alloc: Global) -> Result<Trigger, Refusal>
        ensures { Reads placed_activation (reading.activation self.old) result self.new }
    {
        if self.is_keyword(keyword::PERIODIC) {
            return self.periodic(alloc);
        }
        self.at_event(alloc)
    }

    /// The numbers of a handler in their parentheses.
    #[tactic(auto, unfolding(syntax_reading::specs::Reading::numbers))]
    fn numbers(&mut self, alloc: Global) -> Result<List<Constant>, Refusal>
        ensures { Reads (map placed_constant) (reading.numbers self.old) result self.new }
    {
        tri!(self.expect_sign(sign::LEFT_PAREN));
        let numbers = tri!(self.listed_numbers(alloc));
        tri!(self.expect_sign(sign::RIGHT_PAREN));
        Ok(numbers)
    }

    #[tactic(auto, unfolding(syntax_reading::specs::ExprReading::listed))]
    fn listed_numbers(&mut self, alloc: Global) -> Result<List<Constant>, Refusal>
        ensures { Reads (map placed_constant) (listed constant_at self.old) result self.new }
    {
        let mut numbers = List::new(alloc);
        let first = tri!(self.constant(alloc));
        made!(numbers.push(first));
        self.more_numbers(alloc, numbers)
    }

    /// The numbers behind those that were read, each after a comma.
    #[tactic(auto, unfolding(syntax_reading::specs::ExprReading::many))]
    fn more_numbers(
        &mut self,
        alloc: Global,
        mut numbers: List<Constant>,
    ) -> Result<List<Constant>, Refusal>
        ensures { Reads (map placed_constant)
            (with_front (map placed_constant numbers)
            (many (is_at COMMA) (behind_comma constant_at) self.old)) result self.new }
    {
        let turns = self.left();
        for _turn in 0..turns {
            if !self.is_sign(sign::COMMA) {
                return Ok(numbers);
            }
            let more = tri!(self.next_constant(alloc));
            made!(numbers.push(more));
        }
        Ok(numbers)
    }

    #[tactic(auto, unfolding(syntax_reading::specs::ExprReading::behind_comma))]
    fn next_constant(&mut self, alloc: Global) -> Result<Constant, Refusal>
        ensures { Reads placed_constant (behind_comma constant_at self.old) result self.new }
    {
        tri!(self.expect_sign(sign::COMMA));
        self.constant(alloc)
    }

    /// The handler, where there is one.
    #[tactic(auto, unfolding(syntax_reading::specs::Reading::handler))]
    fn handler(&mut self, alloc: Global) -> Result<Option<Handler>, Refusal>
        ensures { Reads (optional placed_handler)
            (reading.handler MOST_LEVELS self.old) result self.new }
    {
        if self.is_keyword(keyword::HANDLER) {
            tri!(self.expect_keyword(keyword::HANDLER));
            let numbers = tri!(self.numbers(alloc));
            let body = tri!(self.stmts(alloc, 64));
            return Ok(Some(Handler { numbers, body }));
        }
        Ok(None)
    }

    #[tactic(auto, unfolding(crate::specs::Parts::process_code))]
    fn process_code(&mut self, alloc: Global) -> Result<ProcessCode, Refusal>
        ensures { Reads placed_process_code (process_code MOST_LEVELS self.old) result self.new }
    {
        let vars = tri!(self.vars(alloc));
        let routines = tri!(self.routines(alloc));
        let body = tri!(self.block(alloc));
        Ok(ProcessCode {
            vars,
            routines,
            body,
        })
    }

    #[tactic(auto, unfolding(crate::specs::Parts::process_end))]
    fn process_end(&mut self, alloc: Global) -> Result<ProcessEnd, Refusal>
        ensures { Reads placed_process_end (process_end MOST_LEVELS self.old) result self.new }
    {
        let handler = tri!(self.handler(alloc));
        let (close, close_place) = tri!(self.close(alloc));
        Ok(ProcessEnd {
            handler,
            close,
            close_place,
        })
    }

    #[tactic(auto, unfolding(crate::specs::Parts::process_rest))]
    fn process_rest(&mut self, alloc: Global) -> Result<(ProcessCode, ProcessEnd), Refusal>
        ensures { Reads placed_process_rest (process_rest MOST_LEVELS self.old) result self.new }
    {
        let code = tri!(self.process_code(alloc));
        let end = tri!(self.process_end(alloc));
        Ok((code, end))
    }

    #[tactic(auto, using(crate::proofs::Parts::process_parts))]
    pub(crate) fn process(&mut self, alloc: Global) -> Result<Process, Refusal>
        ensures { Reads placed_process (reading.process_decl MOST_LEVELS self.old) result self.new }
    {
        tri!(self.expect_keyword(keyword::PROCESS));
        let (name, place) = tri!(self.name(alloc));
        tri!(self.expect_sign(sign::COLON));
        let activation = tri!(self.activation(alloc));
        let (code, end) = tri!(self.process_rest(alloc));
        Ok(Process {
            name,
            place,
            activation,
            vars: code.vars,
            routines: code.routines,
            body: code.body,
            handler: end.handler,
            close: end.close,
            close_place: end.close_place,
        })
    }
}
