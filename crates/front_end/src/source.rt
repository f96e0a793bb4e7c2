//! Reading a text.

ghost use Rattle.std.specs.Prelude.{◌≡◌, IfOk, IfErr, MatchResult};
ghost use Rattle.out_of_memory.specs.Refused.{refused};
ghost use Rattle.syntax_tree.specs.Placed.{placed, Prog as SpecProg};
ghost use Rattle.syntax_tree.specs.declared.place.Place.{Place as SpecPlace};
ghost use Rattle.front_end.specs.Source.{IsTreeOf, IsSourceFaultOf};

use crate::fault::SourceFault;
use std::alloc::Global;
use syntax::{lex, one_list};
use syntax_parser::parse;
use syntax_tree::Program;

/// The tree of a text.
///
/// # Errors
///
/// `Fault` exactly where the text has no tree, with the number and the place of its fault. A fault
/// of an earlier group comes first: the length (4), then bytes, literals and identifiers (1, 2, 3),
/// then the grammar and its nesting (10, 11). `Memory` where there is not enough memory for the
/// tokens or the tree.
pub fn read_tree(alloc: Global, text: &[u8]) -> Result<Program, SourceFault>
    // What is read is the tree of the text.
    ensures found { IfOk result (λ g. IsTreeOf text.now (placed g)) }
    // A tree of the text is read, unless memory runs out.
    ensures only { (g : SpecProg SpecPlace) → IsTreeOf text.now g →
        MatchResult result (λ p. placed p ≡ g) (λ f. f ≡ SourceFault.Memory refused) }
    // A fault is the text's.
    ensures fault { IfErr result (λ f. IsSourceFaultOf text.now f) }
{
    one_list();
    let tokens = lex(alloc, text)?;
    let tree = parse(alloc, text, &tokens)?;
    Ok(tree)
}
