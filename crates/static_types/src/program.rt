//! The statements and results of a program.

ghost use Rattle.syntax_tree.specs.Placed.{placed};
ghost use Rattle.static_rule.specs.First.{IsFirstOf};
ghost use Rattle.static_types.specs.Rules.{StatementFails};

use crate::rules::{try_answer, try_stmt};
use static_declarations::Declarations;
use static_parts::{PartVisitor, ProgramPart, visit_parts};
use static_rule::Violation;

/// Tries the rules on each part of a program, and keeps the failure that comes first.
#[derive(Drop)]
struct RuleTest<'d, 'p> {
    first: Option<Violation>,
    declarations: &'d Declarations<'p>,
}

impl<'d, 'p> PartVisitor for RuleTest<'d, 'p> {
    ghost use Rattle.std.specs.Prelude.{Option};
    ghost use Rattle.static_rule.specs.Parts.{noted};
    ghost use Rattle.static_rule.specs.declared.violation.Violation.{Violation};
    ghost use Rattle.static_types.specs.Rules.{statement_rules};

    ghost Found = { Option Violation };

    ghost found = { λ test parts. noted (statement_rules (placed test.declarations.now)) test.first parts };

    ghost ended = { λ test part. test.first };

    fn visit(&mut self, part: ProgramPart<'_>) -> bool {
        match part {
            ProgramPart::Statement { here, s } => {
                try_stmt(&mut self.first, self.declarations, here, s);
            }
            ProgramPart::Answer { name, kind, value } => {
                try_answer(&mut self.first, self.declarations, name, kind, value);
            }
        }
        false
    }
}

/// The rule for statements that fails first, by place and then by number; `None` where none fails.
pub fn first_broken(declarations: &Declarations<'_>) -> Option<Violation>
    ensures { IsFirstOf (StatementFails (placed declarations.now)) result }
{
    let mut test = RuleTest {
        first: None,
        declarations,
    };
    visit_parts(&mut test, declarations.program());
    test.first
}
