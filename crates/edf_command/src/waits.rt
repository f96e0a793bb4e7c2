//! The first wait statement of a program.

ghost use Rattle.syntax_tree.specs.Placed.{placed};
ghost use Rattle.command_due.specs.Waits.{wait_rules, IsFirstWaitOf};

use static_parts::{PartVisitor, ProgramPart, visit_parts};
use static_rule::{Violation, blame, rule};
use syntax_tree::{Place, Program, Stmt};

/// Goes through the parts of a program, and keeps the statement that waits and comes first.
#[derive(Drop)]
struct WaitSearch {
    first: Option<Violation>,
}

impl PartVisitor for WaitSearch {
    ghost use Rattle.std.specs.Prelude.{Option};
    ghost use Rattle.static_rule.specs.declared.violation.Violation.{Violation};
    ghost use Rattle.static_rule.specs.Parts.{noted};

    ghost Found = { Option Violation };

    ghost found = { λ search parts. noted wait_rules search.first parts };

    ghost ended = { λ search part. search.first };

    #[tactic(auto, unfolding(command_due::specs::Waits::wait_rules))]
    fn visit(&mut self, part: ProgramPart<'_>) -> bool {
        if let ProgramPart::Statement {
            s: Stmt::Wait { place, .. },
            ..
        } = part
        {
            blame(&mut self.first, rule::WAITS, Some(*place));
        }
        false
    }
}

/// The place of the first wait statement of the program, which is that of its first token; `None`
/// exactly where no statement waits.
pub fn first_wait(program: &Program) -> Option<Place>
    ensures { IsFirstWaitOf (placed program.now) result }
{
    let mut search = WaitSearch { first: None };
    visit_parts(&mut search, program);
    match search.first {
        None => None,
        Some(broken) => Some(broken.place),
    }
}
