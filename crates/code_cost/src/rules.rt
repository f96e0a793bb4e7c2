//! The rules of size.

ghost use Rattle.std.specs.Prelude.{◌≡◌, IfOk};
ghost use Rattle.syntax_tree.specs.Placed.{placed, plain};
ghost use Rattle.static_rule.specs.First.{IsFirstOf};
ghost use Rattle.code_cost.specs.Rules.{SizeFails};
ghost use Rattle.code_cost.specs.Sizes.{AreDefined};
ghost use Rattle.code_cost.specs.Numbers.{HaveNumbers};
ghost use Rattle.code_cost.specs.Told.{code_broken, length_told};

use crate::Measures;
use crate::lengths::code_length;
use crate::stacks::first_large;
use code_names::Numbering;
use out_of_memory::OutOfMemory;
use static_rule::{Violation, rule, sooner};
use std::alloc::Global;
use syntax_tree::{Place, Program};

/// A program has at most so many instructions.
const MOST_INSTRUCTIONS: u64 = 65_535;

/// The rule for the number of instructions, where it fails: at the place of the program's name.
fn long_code(place: Place, measures: &Measures) -> Option<Violation>
    ensures { result ≡ code_broken place (length_told measures.now) }
{
    if code_length(measures) > MOST_INSTRUCTIONS {
        Some(Violation {
            number: rule::LONG_CODE,
            place,
        })
    } else {
        None
    }
}

/// The rule of size that fails first, by place and then by number; `None` exactly where none fails.
///
/// Rule 46 fails at the name of a program of more than 65,535 instructions, rule 47 at the name of
/// a process whose stack has more than 4,096 words, and of a routine or an entry that takes more by
/// itself. It takes time in proportion to the text. Only memory can be wanting.
pub fn too_large(
    alloc: Global,
    program: &Program,
    measures: &Measures,
) -> Result<Option<Violation>, OutOfMemory>
    requires numbers { HaveNumbers (plain (placed program.now)) }
    requires defined { AreDefined (plain (placed program.now)) measures.now }
    ensures { IfOk result (λ first. IsFirstOf (SizeFails (placed program.now)) first) }
{
    let numbering = Numbering::new(alloc, program)?;
    let stack = first_large(&numbering, measures, program.decls.as_slice());
    Ok(sooner(long_code(program.place, measures), stack))
}
