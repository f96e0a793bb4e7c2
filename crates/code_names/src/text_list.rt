//! Lists of routines.

ghost use Rattle.std.specs.Prelude.{◌≡◌, ◌++◌, ◌∷◌, [], length, slice_get, option_map, OnOk, OnErr};
ghost use Rattle.code_names.specs.Texts.{owner_of, text_of, texts_of, text_index, text_named, first_text, with_first};

use crate::text::{Body, RoutineOwner};
use indexmap::IndexMap;
use out_of_memory::OutOfMemory;
use std::alloc::Global;
use std::marker::Model;
use syntax_tree::Name;

/// For each owner and name the index of the first in the list.
type Indexes<'a> = IndexMap<(RoutineOwner, &'a [u8]), usize>;

/// Routines in an order of their own, in which the first of an owner and a name is found at once.
#[derive(Drop)]
pub struct TextList<'a> {
    texts: Vec<Body<'a>>,
    first: Indexes<'a>,
}

impl<'a> Model for TextList<'a> {
    ghost use Rattle.std.specs.Prelude.{List};
    ghost use Rattle.std.specs.Coded.{codes};
    ghost use Rattle.code_names.specs.declared.text.Body.{Body as Item};
    ghost use Rattle.syntax_tree.specs.contracts.decl.Routine as tree;
    ghost use Rattle.code_names.specs.Texts.{texts_of, HasFirsts};

    ghost Value = { List Item };

    ghost coded = { Prim.hlevel (codes, tree.the_row.coded) };

    ghost view = { λ l. l.texts.items };

    ghost invariant = { λ l. HasFirsts l.first.entries (texts_of l.texts.items) };
}

/// Keeps the index of a routine, unless one of its owner and name has one.
fn keep<'a>(
    first: &mut Indexes<'a>,
    owner: RoutineOwner,
    name: &'a [u8],
    index: usize,
) -> Result<(), OutOfMemory>
    ensures ok { OnOk result (first_text first.new.entries ≡
        with_first (first_text first.old.entries) owner name.now index) }
    ensures err { OnErr result (first_text first.new.entries ≡ first_text first.old.entries) }
{
    if first.contains_key(&(owner, name)) {
        return Ok(());
    }
    first.insert((owner, name), index)?;
    Ok(())
}

impl<'a> TextList<'a> {
    pub fn new(alloc: Global) -> TextList<'a>
        ensures { result ≡ [] }
    {
        TextList {
            texts: Vec::new(alloc),
            first: Indexes::new(alloc),
        }
    }

    pub fn len(&self) -> usize
        ensures { result ≡ length self.now }
    {
        self.texts.len()
    }

    pub fn as_slice(&self) -> &[Body<'a>]
        ensures { result.now ≡ self.now }
    {
        self.texts.as_slice()
    }

    pub fn get(&self, index: usize) -> Option<Body<'a>>
        ensures { result ≡ slice_get self.now index }
    {
        self.texts.get(index).copied()
    }

    /// The index of the first routine of that owner and name, from 0; `None` where there is none.
    pub fn index(&self, owner: RoutineOwner, name: &Name) -> Option<usize>
        ensures { result ≡ text_index (owner_of owner) name.now (texts_of self.now) }
    {
        self.first.get(&(owner, name.as_bytes())).copied()
    }

    /// The first routine of that owner and name; `None` where there is none.
    pub fn find(&self, owner: RoutineOwner, name: &Name) -> Option<Body<'a>>
        ensures { option_map text_of result ≡
            text_named (owner_of owner) name.now (texts_of self.now) }
    {
        let index = self.index(owner, name)?;
        self.get(index)
    }

    /// Puts a routine at the end.
    pub fn push(&mut self, text: Body<'a>) -> Result<(), OutOfMemory>
        ensures { OnOk result (self.new ≡ self.old ++ text.entry ∷ []) }
    {
        let index = self.texts.as_slice().len();
        self.texts.push(text)?;
        let name = text.routine.name.as_bytes();
        match keep(&mut self.first, text.owner, name, index) {
            Ok(()) => Ok(()),
            Err(error) => {
                self.texts.truncate(index);
                Err(error)
            }
        }
    }
}
