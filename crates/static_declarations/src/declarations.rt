//! What the names of a program are declared as, and what its constants are worth.

ghost use Rattle.std.specs.Prelude.{◌≡◌, IfOk, ◌≤ℤ◌, pos, negsuc, option_map};
ghost use Rattle.source_semantics.specs.Names.{constants, value_among};
ghost use Rattle.syntax_tree.specs.Placed.{placed, placed_constant, plain};
ghost use Rattle.static_declarations.specs.Things.{named_at};
ghost use Rattle.static_declarations.specs.Values.{value, out_of as out_of_limits};
ghost use Rattle.static_names.specs.Occurrences.{names, declared_at};
ghost use Rattle.static_declarations.specs.Seen.{seen};

use crate::thing::Entity;
use crate::things::{Entities, things};
use crate::values::{Values, named, value_of, values};
use out_of_memory::OutOfMemory;
use static_names::ResolvedProgram;
use std::alloc::Global;
use std::marker::Model;
use syntax_tree::{Constant, Name, Place, Program};

/// The declarations of a program whose names are resolved.
#[derive(Drop)]
pub struct Declarations<'a> {
    named: &'a ResolvedProgram,
    values: Values<'a>,
    things: Entities<'a>,
}

impl<'a> Model for Declarations<'a> {
    ghost use Rattle.std.specs.Prelude.{◌≡◌, [], ◌∷◌, map};
    ghost use Rattle.std.specs.Coded.{codes};
    ghost use Rattle.syntax_tree.specs.Placed.{placed, placed_decl, plain_decl};
    ghost use Rattle.syntax_tree.specs.declared.decl.Program.{Program as Tree};
    ghost use Rattle.syntax_tree.specs.contracts.decl.Program as tree;
    ghost use Rattle.static_declarations.specs.Things.{learn, decls_things, other_thing};
    ghost use Rattle.static_declarations.specs.Seen.{IsKept};

    ghost Value = { Tree };

    ghost coded = { Prim.hlevel (codes, tree.the_row.coded) };

    ghost view = { λ d. d.named.now };

    ghost invariant = { λ d. IsKept d.named.now d.values.entries d.things.entries };
}

impl<'a> Declarations<'a> {
    /// Goes once through the declarations of the program.
    pub fn new(alloc: Global, named: &'a ResolvedProgram) -> Result<Declarations<'a>, OutOfMemory>
        ensures { IfOk result (λ d. d ≡ named.now) }
    {
        let program = named.prog();
        let values = values(alloc, program.decls.as_slice())?;
        let things = things(alloc, program)?;
        Ok(Declarations {
            named,
            values,
            things,
        })
    }

    pub fn program(&self) -> &'a Program
        ensures { result.now ≡ self.now }
    {
        self.named.prog()
    }

    /// What the name that is used at a place is declared as; `None` where no name is used there.
    pub fn named(&self, at: Place) -> Option<Entity<'a>>
        ensures { option_map seen result ≡ named_at (placed self.now) at }
    {
        let declared = self.named.found(&at)?;
        match self.things.get(&(declared.line, declared.col)) {
            Some(thing) => Some(*thing),
            None => Some(Entity::Loop),
        }
    }

    /// Where the name that is used at a place is declared; `None` where no name is used there.
    pub fn declared(&self, at: Place) -> Option<Place>
        ensures { result ≡ declared_at (names (placed self.now)) at }
    {
        self.named.found(&at)
    }

    /// The value of a constant of the program, from -4,294,967,295 to 4,294,967,295.
    pub fn value(&self, constant: &Constant) -> i64
        ensures exact { result ≡ value (placed self.now) (placed_constant constant.now) }
        ensures within { (negsuc 4294967294 ≤ℤ result) × (result ≤ℤ pos 4294967295) }
    {
        value_of(&self.values, constant).get()
    }

    /// The value of the constant of that name, 0 where there is none, from -4,294,967,295 to
    /// 4,294,967,295.
    pub fn constant(&self, name: &Name) -> i64
        ensures exact { result ≡ value_among (constants (plain (placed self.now))) name.now }
        ensures within { (negsuc 4294967294 ≤ℤ result) × (result ≤ℤ pos 4294967295) }
    {
        named(&self.values, name.as_bytes()).get()
    }

    /// The place of a constant whose value is not within the limits.
    pub fn out_of(&self, low: u32, high: u32, constant: &Constant) -> Option<Place>
        ensures { result ≡ out_of_limits (value (placed self.now)) low high
            (placed_constant constant.now) }
    {
        let value = self.value(constant);
        if i64::from(low) <= value && value <= i64::from(high) {
            None
        } else {
            Some(constant.place)
        }
    }
}
