//! Reading declarations and programs.

ghost use Rattle.std.specs.Prelude.{◌≡◌, map};
ghost use Rattle.syntax_tree.specs.Placed.{placed, placed_decl};
ghost use Rattle.syntax.specs.Grammar.{MOST_LEVELS};
ghost use Rattle.syntax_reading.specs.Reading as reading;
ghost use Rattle.syntax_parser.specs.Reads.{Reads};

use crate::fault::{Refusal, made, tri};
use crate::parser::Parser;
use std::alloc::Global;
use syntax::{keyword, sign};
use syntax_tree::{Declaration, List, Program};

impl Parser<'_> {
    #[tactic(auto, unfolding(syntax_reading::specs::Reading::const_decl))]
    fn const_decl(&mut self, alloc: Global) -> Result<Declaration, Refusal>
        ensures { Reads placed_decl (reading.const_decl self.old) result self.new }
    {
        tri!(self.expect_keyword(keyword::CONST));
        let (name, place) = tri!(self.name(alloc));
        tri!(self.expect_sign(sign::ASSIGN));
        let value = tri!(self.constant(alloc));
        Ok(Declaration::Const { name, place, value })
    }

    /// Whether a device is an out device.
    #[tactic(auto, unfolding(syntax_reading::specs::Reading::way))]
    fn is_out_device(&mut self) -> Result<bool, Refusal>
        ensures { Reads (λ b. b) (reading.way self.old) result self.new }
    {
        if self.is_keyword(keyword::OUT) {
            tri!(self.expect_keyword(keyword::OUT));
            return Ok(true);
        }
        tri!(self.expect_keyword(keyword::IN));
        Ok(false)
    }

    #[tactic(auto, unfolding(syntax_reading::specs::Reading::device_decl))]
    fn device_decl(&mut self, alloc: Global) -> Result<Declaration, Refusal>
        ensures { Reads placed_decl (reading.device_decl self.old) result self.new }
    {
        tri!(self.expect_keyword(keyword::DEVICE));
        let (name, place) = tri!(self.name(alloc));
        tri!(self.expect_sign(sign::COLON));
        let is_out = tri!(self.is_out_device());
        Ok(Declaration::Device {
            name,
            place,
            is_out,
        })
    }

    #[tactic(auto, unfolding(syntax_reading::specs::Reading::event_decl))]
    fn event_decl(&mut self, alloc: Global) -> Result<Declaration, Refusal>
        ensures { Reads placed_decl (reading.event_decl self.old) result self.new }
    {
        tri!(self.expect_keyword(keyword::EVENT));
        let (name, place) = tri!(self.name(alloc));
        Ok(Declaration::Event { name, place })
    }

    #[tactic(auto, unfolding(syntax_reading::specs::Reading::decl))]
    fn decl(&mut self, alloc: Global) -> Result<Declaration, Refusal>
        ensures { Reads placed_decl (reading.decl MOST_LEVELS self.old) result self.new }
    {
        if self.is_keyword(keyword::CONST) {
            return self.const_decl(alloc);
        }
        if self.is_keyword(keyword::DEVICE) {
            return self.device_decl(alloc);
        }
        if self.is_keyword(keyword::EVENT) {
            return self.event_decl(alloc);
        }
        if self.is_keyword(keyword::MONITOR) {
            let monitor = tri!(self.monitor(alloc));
            return Ok(Declaration::Monitor(monitor));
        }
        if self.is_keyword(keyword::PROCESS) {
            let process = tri!(self.process(alloc));
            return Ok(Declaration::Process(process));
        }
        let routine = tri!(self.routine(alloc));
        Ok(Declaration::Routine(routine))
    }

    fn is_decl(&self) -> bool
        ensures { result ≡ reading.begins_decl self.now }
    {
        self.is_keyword(keyword::CONST)
            || self.is_keyword(keyword::DEVICE)
            || self.is_keyword(keyword::EVENT)
            || self.is_keyword(keyword::MONITOR)
            || self.is_keyword(keyword::PROCESS)
            || self.is_routine()
    }

    /// As many declarations as there are.
    #[tactic(auto, unfolding(syntax_reading::specs::Reading::decls, syntax_reading::specs::ExprReading::many))]
    fn decls(&mut self, alloc: Global) -> Result<List<Declaration>, Refusal>
        ensures { Reads (map placed_decl) (reading.decls MOST_LEVELS self.old) result self.new }
    {
        let mut decls = List::new(alloc);
        let turns = self.left();
        for _turn in 0..turns {
            if !self.is_decl() {
                return Ok(decls);
            }
            let decl = tri!(self.decl(alloc));
            made!(decls.push(decl));
        }
        Ok(decls)
    }

    #[tactic(auto, unfolding(syntax_reading::specs::Reading::prog))]
    pub(crate) fn prog(&mut self, alloc: Global) -> Result<Program, Refusal>
        ensures { Reads placed (reading.prog MOST_LEVELS self.old) result self.new }
    {
        tri!(self.expect_keyword(keyword::PROGRAM));
        let (name, place) = tri!(self.name(alloc));
        let decls = tri!(self.decls(alloc));
        let (close, close_place) = tri!(self.close(alloc));
        Ok(Program {
            name,
            place,
            decls,
            close,
            close_place,
        })
    }
}
