//! The first part of a program that fails the rule at the place.

ghost use Rattle.std.specs.Prelude.{◌≡◌};
ghost use Rattle.syntax_tree.specs.Placed.{placed};
ghost use Rattle.static_declarations.specs.Things.{named_at};
ghost use Rattle.static_declarations.specs.Parts.{parts};
ghost use Rattle.static_parts.specs.Visits.{part_of};
ghost use Rattle.message_conduct.specs.Conduct.{fault_at, first_fault};
ghost use Rattle.message_conduct.specs.Seen.{seen};

use crate::expr::expr_stray;
use crate::stmt::by_rule;
use crate::stray::Stray;
use static_declarations::Declarations;
use static_parts::{PartVisitor, ProgramPart, stmt_place, visit_parts};
use static_rule::{Violation, rule};

/// What is wrong with a part of a program, if it is the one that is asked for.
fn stray_at<'p>(
    declarations: &Declarations<'_>,
    broken: Violation,
    part: ProgramPart<'p>,
) -> Option<Stray<'p>>
    ensures { seen result ≡ fault_at (named_at (placed declarations.now)) broken (part_of part.entry) }
{
    match part {
        ProgramPart::Statement { here, s } if stmt_place(s) == broken.place => {
            by_rule(declarations, broken.number, here, s)
        }
        ProgramPart::Answer { name, value, .. }
            if name == broken.place && broken.number == rule::MISPLACED => {
            expr_stray(declarations, value)
        }
        _ => None,
    }
}

/// Goes through a program up to the first part that fails the rule at the place.
#[derive(Drop)]
struct Search<'d, 'p> {
    declarations: &'d Declarations<'p>,
    broken: Violation,
}

impl<'d, 'p> PartVisitor for Search<'d, 'p> {
    ghost use Rattle.std.specs.Prelude.{Option};
    ghost use Rattle.message_conduct.specs.Faults.{Fault};

    ghost Found = { Option Fault };

    ghost found = { λ search parts. first_fault (named_at (placed search.declarations.now)) search.broken parts };

    ghost ended = { λ search part. fault_at (named_at (placed search.declarations.now)) search.broken part };

    fn visit(&mut self, part: ProgramPart<'_>) -> bool {
        stray_at(self.declarations, self.broken, part).is_some()
    }
}

/// The first that is wrong by that rule at that place.
pub(crate) fn first_stray<'p>(
    declarations: &Declarations<'p>,
    broken: Violation,
) -> Option<Stray<'p>>
    ensures { let g = placed declarations.now in seen result ≡
        first_fault (named_at g) broken (parts g) }
{
    let mut search = Search {
        declarations,
        broken,
    };
    let part = visit_parts(&mut search, declarations.program())?;
    stray_at(search.declarations, search.broken, part)
}
