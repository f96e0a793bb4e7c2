//! The names that one text sees.

ghost use Rattle.std.specs.Prelude.{◌≡◌, IfOk};
ghost use Rattle.syntax_tree.specs.Placed.{placed, plain};
ghost use Rattle.codegen_spec.specs.declared.var_location.Area.TheVariants as in_area;
ghost use Rattle.code_layout.specs.LayoutTables.{table_of};
ghost use Rattle.codegen_texts.specs.Sites.{scope_at};

use crate::program::ProgramNames;
use crate::site::{Site, told};
use code_layout::{VarLayout, VarLocations, laid_routine, variable};
use code_names::{Body, RoutineOwner};
use codegen_spec::{Callee, Lookup, Loop, Owner as ToldOwner, VarLocation};
use out_of_memory::OutOfMemory;
use std::alloc::Global;
use syntax_tree::{Constant, Name, Process};

/// The names that one text sees: those of the program, and its own parameters and variables.
#[derive(Drop)]
pub struct Names<'p, 'a> {
    program: &'p ProgramNames<'a>,
    site: Site<'a>,
    own: VarLocations<'a>,
    ghost laid: { own ≡ table_of in_area.Frame (scope_at (plain (placed program.now)) site).own },
}

impl<'p, 'a> Names<'p, 'a> {
    ghost use Rattle.syntax_tree.specs.Placed.{placed_process, plain_process};
    ghost use Rattle.code_spec.specs.Compiled.{process_scope, routine_scope};
    ghost use Rattle.code_names.specs.Texts.{owner_of, text_of};
    ghost use Rattle.codegen_texts.specs.Seen.{program_of, scope_of};

    /// The names that a routine or entry sees. Goes once through its parameters and variables.
    pub fn of_routine(
        alloc: Global,
        program: &'p ProgramNames<'a>,
        text: Body<'a>,
    ) -> Result<Names<'p, 'a>, OutOfMemory>
        ensures program { IfOk result (λ names. program_of names ≡ plain (placed program.now)) }
        ensures scope { IfOk result (λ names. scope_of names ≡
            routine_scope (plain (placed program.now)) (text_of text.entry)) }
    {
        let laid = laid_routine(alloc, program.tables().values(), text.routine)?;
        let own = VarLocations::new(alloc, laid)?;
        Ok(Names {
            program,
            site: Site::Routine(text),
            own,
        })
    }

    /// The names that the process of this number sees, in its body and its handler.
    pub fn of_process(
        alloc: Global,
        program: &'p ProgramNames<'a>,
        number: usize,
        process: &'a Process,
    ) -> Result<Names<'p, 'a>, OutOfMemory>
        ensures program { IfOk result (λ names. program_of names ≡ plain (placed program.now)) }
        ensures scope { IfOk result (λ names. scope_of names ≡
            process_scope (plain (placed program.now)) number
            (plain_process (placed_process process.now))) }
    {
        let own = VarLocations::new(alloc, VarLayout::new(alloc, 0))?;
        Ok(Names {
            program,
            site: Site::Process { number, process },
            own,
        })
    }

    /// What the texts of the program share.
    fn shared(&self) -> &'p ProgramNames<'a>
        ensures { result.now ≡ self.now.program.now }
    {
        self.program
    }

    /// Whose text it is.
    fn whose(&self) -> RoutineOwner
        ensures { owner_of result ≡ (scope_of self.now).owner }
    {
        match self.site {
            Site::Routine(text) => text.owner,
            Site::Process { number, .. } => RoutineOwner::Process(number),
        }
    }
}

impl<'p, 'a> Lookup for Names<'p, 'a> {
    ghost use Rattle.codegen_texts.specs.Seen.{program_of, scope_of};

    ghost program = { λ names. program_of names };

    ghost scope = { λ names. scope_of names };

    fn variable(&self, loops: &[Loop], name: &Name) -> Option<VarLocation> {
        let outer = self.shared().outer(self.whose());
        variable(&self.own, outer, loops, name)
    }

    fn constant(&self, name: &Name) -> i32 {
        self.shared().tables().constant(name)
    }

    fn value(&self, constant: &Constant) -> i32 {
        self.shared().tables().value(constant)
    }

    fn device(&self, name: &Name) -> i32 {
        self.shared().tables().device(name)
    }

    fn owner(&self) -> ToldOwner {
        told(self.whose())
    }

    fn condition(&self, name: &Name) -> i32 {
        self.shared().condition(self.whose(), name)
    }

    fn routine(&self, name: &Name) -> Option<&Callee> {
        self.shared().routine(self.whose(), name)
    }

    fn entry(&self, monitor: &Name, name: &Name) -> Option<&Callee> {
        self.shared().entry(monitor, name)
    }
}
