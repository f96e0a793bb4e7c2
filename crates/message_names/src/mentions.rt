//! The names of a program, in the order of the text.

ghost use Rattle.std.specs.Prelude.{◌≡◌, ◌<◌, [], ◌∷◌, ◌++◌, length, set, OnOk};
ghost use Rattle.message_names.specs.Mentions.{declares, last_place, mention, uses};
ghost use Rattle.message_names.specs.Seen.{mention_of, mentions_of};

use crate::role::{Reach, Role, Scope, Wanted, What};
use out_of_memory::OutOfMemory;
use std::alloc::Global;
use std::marker::Model;
use syntax_tree::{Name, Place};

/// A name at its place, with what it does there.
#[derive(Clone, Copy)]
pub(crate) struct Mention<'a> {
    pub name: &'a [u8],
    pub place: Place,
    pub role: Role,
}

/// Names of a program.
#[derive(Drop)]
pub(crate) struct Mentions<'a> {
    items: Vec<Mention<'a>>,
}

impl<'a> Model for Mentions<'a> {
    ghost use Rattle.std.specs.Prelude.{List};
    ghost use Rattle.message_names.specs.Mentions.{Mention as Mentioned};
    ghost use Rattle.message_names.specs.Seen.{mentions_of};

    ghost Value = { List Mentioned };

    ghost view = { λ ms. mentions_of ms.items.items };
}

impl<'a> Mentions<'a> {
    /// No names.
    pub fn new(alloc: Global) -> Mentions<'a>
        ensures { result ≡ [] }
    {
        Mentions {
            items: Vec::new(alloc),
        }
    }

    /// How many names there are.
    pub fn len(&self) -> usize
        ensures { result ≡ length self.now }
    {
        self.items.len()
    }

    /// The names, in their order.
    pub fn as_slice(&self) -> &[Mention<'a>]
        ensures { mentions_of result.now ≡ self.now }
    {
        self.items.as_slice()
    }

    /// Puts a name at the end.
    pub fn push(&mut self, mention: Mention<'a>) -> Result<(), OutOfMemory>
        ensures { OnOk result (self.new ≡ self.old ++ mention_of mention.entry ∷ []) }
    {
        self.items.push(mention)?;
        Ok(())
    }

    /// Puts a name at the end, by its parts.
    pub fn add(&mut self, name: &'a Name, place: Place, role: Role) -> Result<(), OutOfMemory>
        ensures { OnOk result (self.new ≡ self.old ++ mention name.now place role ∷ []) }
    {
        let name = name.as_bytes();
        self.push(Mention { name, place, role })
    }

    /// Puts a name that is used.
    pub fn uses(&mut self, wanted: Wanted, name: &'a Name, place: Place) -> Result<(), OutOfMemory>
        ensures { OnOk result (self.new ≡ self.old ++ uses wanted name.now place ∷ []) }
    {
        self.add(name, place, Role::Uses(wanted))
    }

    /// Puts a name that is declared and reaches in all of its scope.
    pub fn declares(
        &mut self,
        what: What,
        scope: Scope,
        name: &'a Name,
        place: Place,
    ) -> Result<(), OutOfMemory>
        ensures { OnOk result (self.new ≡ self.old ++ declares what scope name.now place ∷ []) }
    {
        let from = scope.begin;
        self.add(name, place, Role::Declares(Reach { what, scope, from }))
    }

    /// The place of the last name, that place where there is none.
    pub fn last_place(&self, place: Place) -> Place
        ensures { result ≡ last_place place self.now }
    {
        let count = self.items.len();
        if count == 0 {
            return place;
        }
        self.items[count - 1].place
    }

    /// Puts another name in place of that of the index.
    pub fn replace(&mut self, index: usize, mention: Mention<'a>)
        requires { index < length self.old }
        ensures { self.new ≡ set self.old index (mention_of mention.entry) }
    {
        self.items[index] = mention;
    }
}
