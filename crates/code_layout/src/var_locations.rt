//! Tables of variables.

ghost use Rattle.std.specs.Prelude.{◌≡◌, IfOk};
ghost use Rattle.code_names.specs.First.{names_of};
ghost use Rattle.code_layout.specs.LayoutTables.{spot_in};

use crate::var_layout::VarLayout;
use code_names::NameList;
use codegen_spec::VarLocation;
use out_of_memory::OutOfMemory;
use std::alloc::Global;
use std::marker::Model;
use syntax_tree::Name;

/// Variables in the order of their declarations, in which the first of a name is found at once.
pub struct VarLocations<'a> {
    names: NameList<'a>,
    spots: Vec<VarLocation>,
}

impl<'a> Model for VarLocations<'a> {
    ghost use Rattle.code_layout.specs.LayoutTables.{Table as Tabled};

    ghost Value = { Tabled };

    ghost view = { λ s. record { names = s.names; spots = s.spots.items } };
}

/// By hand, as that of `Tables`.
impl Drop for VarLocations<'_> {
    fn drop(self) {
        let VarLocations { names, spots } = self;
        drop(names);
        drop(spots);
    }
}

impl<'a> VarLocations<'a> {
    /// The table of variables that are laid.
    pub fn new(alloc: Global, laid: VarLayout<'a>) -> Result<VarLocations<'a>, OutOfMemory>
        ensures names { IfOk result (λ t. t.names ≡ names_of laid.entry.names.items) }
        ensures spots { IfOk result (λ t. t.spots ≡ laid.entry.spots.items) }
    {
        let names = NameList::new(alloc, laid.names)?;
        Ok(VarLocations {
            names,
            spots: laid.spots,
        })
    }

    /// The first variable of that name; `None` where there is none.
    pub fn find(&self, name: &Name) -> Option<VarLocation>
        ensures { result ≡ spot_in self.now name.now }
    {
        match self.names.index(name) {
            Some(index) => self.spots.get(index).copied(),
            None => None,
        }
    }
}
