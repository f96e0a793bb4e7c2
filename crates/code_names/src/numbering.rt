//! The numbers of routines and entries.

ghost use Rattle.std.specs.Prelude.{◌≡◌, IfOk, option_map, slice_get, length};
ghost use Rattle.syntax_tree.specs.Placed.{placed, plain};
ghost use Rattle.code_spec.specs.Numbering.{numbered, number_of};
ghost use Rattle.code_names.specs.Texts.{text_of, texts_of};

use crate::directory::Directory;
use crate::order::ordered;
use crate::text::Body;
use crate::text_list::TextList;
use out_of_memory::OutOfMemory;
use std::alloc::Global;
use std::marker::Model;
use syntax_tree::Program;

/// The routines and entries of a program by their numbers. Those that a routine calls have lower
/// numbers, where none reaches itself by calls.
#[derive(Drop)]
pub struct Numbering<'a> {
    directory: Directory<'a>,
    order: TextList<'a>,
}

impl<'a> Model for Numbering<'a> {
    ghost use Rattle.std.specs.Prelude.{◌≡◌};
    ghost use Rattle.std.specs.Coded.{codes};
    ghost use Rattle.syntax_tree.specs.declared.decl.Program.{Program as Tree};
    ghost use Rattle.syntax_tree.specs.contracts.decl.Program as tree;
    ghost use Rattle.code_names.specs.Parts.{IsNumbered};

    ghost Value = { Tree };

    ghost coded = { Prim.hlevel (codes, tree.the_row.coded) };

    ghost view = { λ n. n.directory };

    ghost invariant = { λ n. IsNumbered n.directory n.order };
}

impl<'a> Numbering<'a> {
    /// Numbers the routines of a program, in time in proportion to its text.
    pub fn new(alloc: Global, program: &'a Program) -> Result<Numbering<'a>, OutOfMemory>
        ensures { IfOk result (λ n. n ≡ program.now) }
    {
        let directory = Directory::new(alloc, program)?;
        let order = ordered(alloc, &directory)?;
        Ok(Numbering { directory, order })
    }

    /// What the names in calls mean.
    pub fn directory(&self) -> &Directory<'a>
        ensures { result.now ≡ self.now }
    {
        &self.directory
    }

    /// All routines and entries by number.
    pub fn order(&self) -> &TextList<'a>
        ensures { texts_of result.now ≡ numbered (plain (placed self.now)) }
    {
        &self.order
    }

    /// The number of a routine; the count of routines where it has none.
    pub fn number(&self, text: Body<'_>) -> usize
        ensures { result ≡ number_of (plain (placed self.now)) (text_of text.entry) }
    {
        match self.order.index(text.owner, &text.routine.name) {
            Some(number) => number,
            None => self.order.as_slice().len(),
        }
    }
}
