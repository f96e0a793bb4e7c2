//! Lists of names in which the first of a name is found at once, in constant expected time.
//!
//! `specs/First.antt` says which index is that of the first of a name. Contracts see a `NameList`
//! as the list of its names.
//!
//! Lists of names.

ghost use Rattle.std.specs.Prelude.{◌≡◌, ℕ, map, length, IfOk, OnOk};
ghost use Rattle.code_names.specs.First.{index_of, first_index, names_of, with_first};

use indexmap::IndexMap;
use out_of_memory::OutOfMemory;
use std::alloc::Global;
use std::marker::Model;
use syntax_tree::Name;

/// For each name the index of the first in the list.
type Indexes<'a> = IndexMap<&'a [u8], usize>;

/// Names in an order of their own, in which the first of a name is found at once.
#[derive(Drop)]
pub struct NameList<'a> {
    names: Vec<&'a [u8]>,
    first: Indexes<'a>,
}

impl<'a> Model for NameList<'a> {
    ghost use Rattle.std.specs.Prelude.{List, ℕ};
    ghost use Rattle.code_names.specs.First.{names_of, FindsFirst};

    ghost Value = { List (List ℕ) };

    ghost view = { λ l. names_of l.names.items };

    ghost invariant = { λ l. FindsFirst l.first.entries (names_of l.names.items) };
}

/// Among so many names the first is found sooner one by one than in the map.
const FEW: usize = 4;

/// The index of the first of that name, from 0, found one by one.
fn first_of(names: &[&[u8]], name: &[u8]) -> Option<usize>
    ensures { result ≡ index_of name.now (names_of names.now) }
{
    for (index, one) in names.iter().enumerate() {
        if *one == name {
            return Some(index);
        }
    }
    None
}

/// Keeps the index of a name, unless one is kept.
fn keep<'a>(first: &mut Indexes<'a>, name: &'a [u8], index: usize) -> Result<(), OutOfMemory>
    ensures { OnOk result (first_index first.new.entries ≡
        with_first (first_index first.old.entries) name.now index) }
{
    if first.contains_key(name) {
        return Ok(());
    }
    first.insert(name, index)?;
    Ok(())
}

impl<'a> NameList<'a> {
    /// The list of these names.
    pub fn new(alloc: Global, names: Vec<&'a [u8]>) -> Result<NameList<'a>, OutOfMemory>
        ensures { IfOk result (λ l. l ≡ map (λ n. n.now) names.entry.items) }
    {
        let mut first = Indexes::new(alloc);
        for (index, name) in names.iter().enumerate() {
            keep(&mut first, name, index)?;
        }
        Ok(NameList { names, first })
    }

    /// How many names there are.
    pub fn len(&self) -> usize
        ensures { result ≡ length self.now }
    {
        self.names.len()
    }

    /// The index of the first of that name, from 0; `None` where there is none.
    pub fn index(&self, name: &Name) -> Option<usize>
        ensures { result ≡ index_of name.now self.now }
    {
        if self.names.len() <= FEW {
            return first_of(self.names.as_slice(), name.as_bytes());
        }
        self.first.get(name.as_bytes()).copied()
    }
}
