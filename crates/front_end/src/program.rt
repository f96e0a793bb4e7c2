//! Reading a program text.

ghost use Rattle.std.specs.Prelude.{◌≡◌, IfOk, IfErr, MatchResult};
ghost use Rattle.out_of_memory.specs.Refused.{refused};
ghost use Rattle.syntax_tree.specs.Placed.{placed, Prog as SpecProg};
ghost use Rattle.syntax_tree.specs.declared.place.Place.{Place as SpecPlace};
ghost use Rattle.front_end.specs.Program.{IsProgramOf, IsFaultOf, nominal, regular};

use crate::fault::SourceFault;
use crate::one_program_law::{one_tree, program_or_fault};
use crate::source::read_tree;
use static_names::{NameFault, name};
use static_semantics::{Checked, RuleFault, check};
use std::alloc::Global;

/// What a fault of names is told as.
fn of_names(fault: NameFault) -> SourceFault
    ensures { result ≡ nominal fault }
{
    match fault {
        NameFault::Rule { number, place } => SourceFault::Fault { number, place },
        NameFault::Memory(error) => SourceFault::Memory(error),
    }
}

/// What a fault of the static rules is told as.
fn of_rules(fault: RuleFault) -> SourceFault
    ensures { result ≡ regular fault }
{
    match fault {
        RuleFault::Rule { number, place } => SourceFault::Fault { number, place },
        RuleFault::Memory(error) => SourceFault::Memory(error),
    }
}

/// The program of a text.
///
/// # Errors
///
/// `Fault` exactly where the text is no program text, with the number and the place of its fault.
/// A fault of an earlier group comes first: the length (4); bytes, literals and identifiers (1, 2,
/// 3); the grammar and its nesting (10, 11); the names (20 to 23); the static rules (30 to 45).
/// Within a group the one whose place comes first is told, at one place that of the least number.
/// `Memory` where there is not enough memory for the program.
pub fn read(alloc: Global, text: &[u8]) -> Result<Checked, SourceFault>
    // What is read is the program of the text.
    ensures found { IfOk result (λ c. IsProgramOf text.now (placed c)) }
    // A program of the text is read, unless memory runs out.
    ensures only { (g : SpecProg SpecPlace) → IsProgramOf text.now g →
        MatchResult result (λ c. placed c ≡ g) (λ f. f ≡ SourceFault.Memory refused) }
    // A fault is the text's.
    ensures fault { IfErr result (λ f. IsFaultOf text.now f) }
{
    one_tree();
    program_or_fault();
    let tree = read_tree(alloc, text)?;
    let named = match name(alloc, tree) {
        Ok(named) => named,
        Err(fault) => return Err(of_names(fault)),
    };
    match check(alloc, named) {
        Ok(checked) => Ok(checked),
        Err(fault) => Err(of_rules(fault)),
    }
}
