//! Static rules: what a program whose names are resolved has to keep to besides.
//!
//! `specs/Static.antt` joins the rules, which are stated apart in the rooms below: those for
//! statements in `static_types`, for declarations in `static_numbers`, and for what
//! is reached by calls in `static_calls`. `check` answers `Ok` exactly where none fails at any
//! place, else the rule that fails first. What it passes is well formed, as the meaning of programs
//! takes it for granted: that is the law of `wellformed_law`.
//!
//! Programs that keep to all rules.

ghost use Rattle.std.specs.Prelude.{◌≡◌, IfOk, IfErr, IfSome, IfNone};
ghost use Rattle.syntax_tree.specs.Placed.{placed};
ghost use Rattle.static_rule.specs.First.{IsFirstOf};
ghost use Rattle.static_names.specs.Occurrences.{names, declared_at};
ghost use Rattle.static_names.specs.Rules.{NamesAt, UsedAt};
ghost use Rattle.static_semantics.specs.Static.{Fails, IsChecked, IsFault};

use out_of_memory::OutOfMemory;
use static_declarations::Declarations;
use static_names::ResolvedProgram;
use static_rule::{Violation, sooner};
use std::alloc::Global;
use std::marker::Model;
use syntax_tree::{Place, Program};
use thiserror::Error;

/// Why a program was refused. A rule prints as its number and its place.
#[derive(Debug, Drop, Error)]
pub enum RuleFault {
    /// A static rule fails, by its number from 30 to 45.
    #[error("E{number} {}:{}", .place.line, .place.col)]
    Rule { number: u8, place: Place },
    /// There was not enough memory.
    #[error("out of memory")]
    Memory(OutOfMemory),
}

/// A program that keeps to the rules for names and to all static rules. By the law of
/// `wellformed_law` it is well formed, as the meaning of programs takes it for granted.
#[derive(Drop)]
pub struct Checked {
    named: ResolvedProgram,
}

impl Model for Checked {
    ghost use Rattle.std.specs.Coded.{codes};
    ghost use Rattle.syntax_tree.specs.Placed.{placed};
    ghost use Rattle.syntax_tree.specs.declared.decl.Program.{Program as Tree};
    ghost use Rattle.syntax_tree.specs.contracts.decl.Program as tree;
    ghost use Rattle.static_semantics.specs.Static.{IsChecked};

    ghost Value = { Tree };

    ghost coded = { Prim.hlevel (codes, tree.the_row.coded) };

    ghost view = { λ c. c.named };

    ghost invariant = { λ c. IsChecked (placed c.named) };
}

/// The static rule that fails first, if any does.
fn first_broken(alloc: Global, named: &ResolvedProgram) -> Result<Option<Violation>, OutOfMemory>
    ensures { IfOk result (λ first. IsFirstOf (Fails (placed named.now)) first) }
{
    let declarations = Declarations::new(alloc, named)?;
    let statements = static_types::first_broken(&declarations);
    let limits = static_numbers::first_broken(alloc, &declarations)?;
    let reach = static_calls::first_broken(alloc, &declarations)?;
    Ok(sooner(statements, sooner(limits, reach)))
}

/// Tries the static rules: `Ok` exactly where none fails at any place, else the rule that fails
/// first, by place and then by number.
pub fn check(alloc: Global, named: ResolvedProgram) -> Result<Checked, RuleFault>
    ensures same { IfOk result (λ c. c ≡ named) }
    ensures checked { IfOk result (λ c. IsChecked (placed c)) }
    ensures fault { IfErr result (λ f. IsFault (placed named) f) }
{
    match first_broken(alloc, &named) {
        Ok(None) => Ok(Checked { named }),
        Ok(Some(broken)) => Err(RuleFault::Rule {
            number: broken.number,
            place: broken.place,
        }),
        Err(error) => Err(RuleFault::Memory(error)),
    }
}

impl Checked {
    /// The program's tree.
    pub fn prog(&self) -> &Program
        ensures tree { result.now ≡ self.now }
        ensures checked { IsChecked (placed self.now) }
    {
        self.named.prog()
    }

    /// The program with its names resolved.
    pub fn named(&self) -> &ResolvedProgram
        ensures { result.now ≡ self.now }
    {
        &self.named
    }

    /// Where the name that is used at a place is declared; `None` exactly where no use stands at
    /// that place.
    pub fn found(&self, at: &Place) -> Option<Place>
        ensures some { IfSome result (λ declared. NamesAt (placed self.now) at.now declared) }
        ensures none { IfNone result (¬ UsedAt (placed self.now) at.now) }
        ensures declared { result ≡ declared_at (names (placed self.now)) at.now }
    {
        self.named.found(at)
    }
}
