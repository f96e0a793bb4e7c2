//! What the walk over a tree finds.

ghost use Rattle.std.specs.Prelude.{◌≡◌, OnOk, [], None};
ghost use Rattle.static_names.specs.Occurrences.{closes};
ghost use Rattle.static_names.specs.Findings.{blame as blamed, tie as tied, note, note_use, note_declaration};

use crate::errors::tri;
use crate::kind::{Declared, NameUse, suits};
use crate::near_places::PlaceMap;
use out_of_memory::OutOfMemory;
use static_rule::{Violation, rule};
use std::alloc::Global;
use std::hash::BuildHasherDefault;
use std::marker::Model;
use syntax_tree::{Name, Place};

/// The first rule that fails, and for the place of each use that of the declaration.
#[derive(Drop)]
pub struct Findings {
    pub first: Option<Violation>,
    pub ties: PlaceMap<Place>,
}

impl Model for Findings {
    ghost use Rattle.static_names.specs.Findings.{Found};

    ghost Value = { Found };

    ghost view = { λ f. record { first = f.first; ties = f.ties.entries } };
}

impl Findings {
    pub fn new(alloc: Global) -> Findings
        ensures first { result.first ≡ None }
        ensures ties { result.ties ≡ [] }
    {
        Findings {
            first: None,
            ties: PlaceMap::with_hasher(alloc, BuildHasherDefault::new()),
        }
    }

    fn blame(&mut self, number: u8, place: Place)
        ensures { self.new ≡ blamed self.old number place }
    {
        static_rule::blame(&mut self.first, number, Some(place));
    }

    fn tie(&mut self, place: Place, declared: Place) -> Result<(), OutOfMemory>
        ensures { OnOk result (self.new ≡ tied self.old place declared) }
    {
        self.ties.insert((place.line, place.col), declared)?;
        Ok(())
    }

    /// A name is used at the place.
    pub fn use_name(
        &mut self,
        place: Place,
        want: NameUse,
        means: Option<Declared>,
    ) -> Result<(), OutOfMemory>
        ensures { OnOk result (self.new ≡ note_use self.old place want means) }
    {
        match means {
            None => self.blame(rule::UNDECLARED, place),
            Some(declared) => {
                if suits(want, declared.kind) {
                    return self.tie(place, declared.place);
                }
                self.blame(rule::WRONG_KIND, place);
            }
        }
        Ok(())
    }

    /// A name is declared at the place.
    pub fn declare(&mut self, place: Place, taken: bool)
        ensures { self.new ≡ note_declaration self.old place taken }
    {
        if taken {
            self.blame(rule::REDECLARED, place);
        }
    }

    /// A name closes what the other has opened.
    pub fn close(&mut self, name: &Name, place: Place, opening: &Name)
        ensures { self.new ≡ note self.old (closes name.now place opening.now) }
    {
        if name != opening {
            self.blame(rule::WRONG_CLOSING, place);
        }
    }
}
