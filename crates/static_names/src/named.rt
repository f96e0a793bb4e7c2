//! Programs whose names are resolved.

ghost use Rattle.std.specs.Prelude.{◌≡◌, IfOk, IfErr, IfSome, IfNone};
ghost use Rattle.syntax_tree.specs.Placed.{placed};
ghost use Rattle.static_names.specs.Occurrences.{names as names_of, declared_at};
ghost use Rattle.static_names.specs.Rules.{NamesAt, UsedAt};
ghost use Rattle.static_names.specs.Resolved.{IsRead, IsNamed, IsFault};

use crate::near_places::PlaceMap;
use crate::program::findings;
use out_of_memory::OutOfMemory;
use std::alloc::Global;
use std::marker::Model;
use syntax_tree::{Place, Program};
use thiserror::Error;

/// Why a program was refused. A rule prints as its number and its place.
#[derive(Debug, Drop, Error)]
pub enum NameFault {
    /// A rule for names fails: 20 where a name that is used is declared nowhere in reach, 21 where
    /// a name is declared where the same name is in reach, 22 where a name is of the wrong kind for
    /// its use, 23 where a closing name differs from the opening one.
    #[error("E{number} {}:{}", .place.line, .place.col)]
    Rule { number: u8, place: Place },
    /// There was not enough memory.
    #[error("out of memory")]
    Memory(OutOfMemory),
}

/// A program of which no rule for names fails, with where each used name is declared.
#[derive(Drop)]
pub struct ResolvedProgram {
    prog: Program,
    ties: PlaceMap<Place>,
}

impl Model for ResolvedProgram {
    ghost use Rattle.std.specs.Coded.{codes};
    ghost use Rattle.syntax_tree.specs.Placed.{placed};
    ghost use Rattle.syntax_tree.specs.declared.decl.Program.{Program as Tree};
    ghost use Rattle.syntax_tree.specs.contracts.decl.Program as tree;
    ghost use Rattle.static_names.specs.Resolved.{IsResolved};

    ghost Value = { Tree };

    ghost coded = { Prim.hlevel (codes, tree.the_row.coded) };

    ghost view = { λ n. n.prog };

    ghost invariant = { λ n. IsResolved (placed n.prog) n.ties.entries };
}

/// Resolves the names of a program: `Ok` exactly where no rule for names fails, else the rule that
/// fails first, by place and then by number.
///
/// The tree is that of some text's tokens, as `parse` promises.
pub fn name(alloc: Global, p: Program) -> Result<ResolvedProgram, NameFault>
    requires read { IsRead (placed p) }
    ensures same { IfOk result (λ n. n ≡ p) }
    ensures named { IfOk result (λ n. IsNamed (placed n)) }
    ensures fault { IfErr result (λ f. IsFault (placed p) f) }
{
    let found = match findings(alloc, &p) {
        Ok(found) => found,
        Err(error) => return Err(NameFault::Memory(error)),
    };
    match found.first {
        Some(broken) => Err(NameFault::Rule {
            number: broken.number,
            place: broken.place,
        }),
        None => Ok(ResolvedProgram {
            prog: p,
            ties: found.ties,
        }),
    }
}

impl ResolvedProgram {
    /// Where the name that is used at a place is declared; `None` exactly where no use stands at
    /// that place.
    pub fn found(&self, at: &Place) -> Option<Place>
        ensures some { IfSome result (λ declared. NamesAt (placed self.now) at.now declared) }
        ensures none { IfNone result (¬ UsedAt (placed self.now) at.now) }
        ensures declared { result ≡ declared_at (names_of (placed self.now)) at.now }
    {
        self.ties.get(&(at.line, at.col)).copied()
    }

    pub fn prog(&self) -> &Program
        ensures tree { result.now ≡ self.now }
        ensures read { IsRead (placed self.now) }
        ensures named { IsNamed (placed self.now) }
    {
        &self.prog
    }
}
