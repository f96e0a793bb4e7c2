//! Laws of the trees that are read: each name has a place of its own and each use its declaration,
//! literals are words, and functions alone have results.
//!
//! Laws of the trees that are read. These functions do nothing; their contracts are the laws.

ghost use Rattle.syntax_tree.specs.Placed.{Prog};
ghost use Rattle.syntax_tree.specs.declared.place.Place.{Place};
ghost use Rattle.static_names.specs.Resolved.{IsRead, IsNamed};
ghost use Rattle.static_semantics.specs.Places.{StandApart, NamesFound};
ghost use Rattle.static_semantics.specs.Written.{IsWritten};

use syntax::tokens_in_order;

/// At each place stands at most one name of a tree that is read.
pub fn names_stand_apart()
    ensures { (g : Prog Place) → IsRead g → StandApart g }
{
    tokens_in_order();
}

/// In a tree that is read literals are words, and functions alone have a result type and a result.
pub fn trees_are_written()
    ensures { (g : Prog Place) → IsRead g → IsWritten g }
{
    tokens_in_order();
}

/// Where no rule for names fails, each use of a tree that is read has its declaration.
pub fn names_are_found()
    ensures { (g : Prog Place) → IsRead g → IsNamed g → NamesFound g }
{
    names_stand_apart();
}
