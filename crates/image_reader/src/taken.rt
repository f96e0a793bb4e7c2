//! Names that are taken, each of which is found at once.

ghost use Rattle.std.specs.Prelude.{◌≡◌, ◌++◌, ◌∷◌, [], false, OnOk};
ghost use Rattle.image_reader.specs.Grammar.{has as is_among, is_again};
ghost use Rattle.image_reader.specs.Taken.{Judges};

use image::ConditionName;
use indexmap::IndexSet;
use out_of_memory::OutOfMemory;
use std::alloc::Global;
use std::marker::Model;
use syntax_tree::Name;

/// Names that no later part may have, in the order in which they were taken.
#[derive(Drop)]
pub struct TakenNames {
    names: IndexSet<Name>,
}

impl Model for TakenNames {
    ghost use Rattle.std.specs.Prelude.{List, ℕ};

    ghost Value = { List (List ℕ) };

    ghost view = { λ t. t.names.keys };
}

impl TakenNames {
    /// No names.
    pub fn new(alloc: Global) -> TakenNames
        ensures { result ≡ [] }
    {
        TakenNames {
            names: IndexSet::new(alloc),
        }
    }

    /// Whether the name is one of these.
    pub fn has(&self, name: &Name) -> bool
        ensures { result ≡ is_among self.now name.now }
    {
        self.names.contains(name)
    }

    /// Takes a name that is none of these.
    pub fn take(&mut self, alloc: Global, name: &Name) -> Result<(), OutOfMemory>
        requires { is_among self.old name.now ≡ false }
        ensures { OnOk result (self.new ≡ self.old ++ name.now ∷ []) }
    {
        let copy = Name::new(alloc, name.as_bytes())?;
        self.names.insert_full(copy)?;
        Ok(())
    }
}

/// Conditions that stand before another, by monitor and name.
#[derive(Drop)]
pub struct EarlierConditions {
    pairs: IndexSet<(u16, Name)>,
}

impl Model for EarlierConditions {
    ghost use Rattle.std.specs.Prelude.{List, map};
    ghost use Rattle.image.specs.declared.names.ConditionName.{ConditionName};
    ghost use Rattle.image_reader.specs.Taken.{condition_in};

    ghost Value = { List ConditionName };

    ghost view = { λ e. map condition_in e.pairs.keys };
}

impl EarlierConditions {
    /// No conditions.
    pub fn new(alloc: Global) -> EarlierConditions
        ensures { result ≡ [] }
    {
        EarlierConditions {
            pairs: IndexSet::new(alloc),
        }
    }

    /// The condition of that name and that monitor, where none of these is one; else nothing.
    pub fn unless_again(&self, name: Name, mon: u16) -> Option<ConditionName>
        ensures { Judges self.now (record { name = name; mon = mon }) result }
    {
        let pair = (mon, name);
        if self.pairs.contains(&pair) {
            return None;
        }
        let (mon, name) = pair;
        Some(ConditionName { name, mon })
    }

    /// Notes a condition that is none of these.
    pub fn note(&mut self, alloc: Global, condition: &ConditionName) -> Result<(), OutOfMemory>
        requires { is_again self.old condition.now ≡ false }
        ensures { OnOk result (self.new ≡ self.old ++ condition.now ∷ []) }
    {
        let copy = Name::new(alloc, condition.name.as_bytes())?;
        self.pairs.insert_full((condition.mon, copy))?;
        Ok(())
    }
}
