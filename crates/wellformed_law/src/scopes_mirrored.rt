//! Laws of the scopes of a program: declarations are known by their places, and what is in reach by
//! the rules for names is what the meaning of programs looks up.
//!
//! Laws of the scopes of a program. These functions do nothing; their contracts are the laws.

ghost use Rattle.std.specs.Prelude.{Contains};
ghost use Rattle.syntax_tree.specs.Placed.{Prog, Process, process};
ghost use Rattle.syntax_tree.specs.declared.place.Place.{Place};
ghost use Rattle.static_semantics.specs.Places.{StandApart, NamesFound};
ghost use Rattle.static_semantics.specs.Written.{IsWritten};
ghost use Rattle.static_semantics.specs.Things.{ThingsKnown};
ghost use Rattle.static_semantics.specs.Mirrors.{NamesListed, PartsListed, AreMirrored};

/// Where names stand apart, declarations are known by their places.
pub fn things_are_known()
    ensures { (g : Prog Place) → StandApart g → ThingsKnown g }
{}

/// The names, statements and results in each declaration are those of the program.
pub fn declarations_are_listed()
    ensures names { (g : Prog Place) → NamesListed g }
    ensures parts { (g : Prog Place) → PartsListed g }
{}

/// The texts that a process may run stand in the meaning as they stand in the program.
pub fn texts_are_mirrored()
    ensures { (g : Prog Place) → StandApart g → IsWritten g → NamesFound g → NamesListed g →
        ThingsKnown g → (p : Process Place) → Contains g.decls (process p) → AreMirrored g p }
{}
