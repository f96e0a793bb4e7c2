//! The bounds of types.

ghost use Rattle.std.specs.Prelude.{◌≡◌, []};
ghost use Rattle.syntax_tree.specs.Placed.{placed};
ghost use Rattle.static_declarations.specs.Values.{value};
ghost use Rattle.static_numbers.specs.Types.{decls_bounds};
ghost use Rattle.message_rules.specs.Findings.{bounds_findings};
ghost use Rattle.message_rules.specs.Seen.{left};

use crate::fault::{Fault, Quantity, note};
use static_declarations::Declarations;
use static_numbers::{Bounds, BoundsVisitor, crossed, too_long, visit_bounds};
use static_rule::{Violation, rule};

/// Looks through the findings of bounds.
#[derive(Drop)]
struct BoundsLook<'d, 'p> {
    declarations: &'d Declarations<'p>,
    broken: Violation,
    known: Option<Fault>,
}

impl BoundsVisitor for BoundsLook<'_, '_> {
    ghost use Rattle.std.specs.Prelude.{Option};
    ghost use Rattle.message_rules.specs.declared.fault.Fault.{Fault as SpecFault};

    ghost Found = { Option SpecFault };

    ghost found = { λ l. left (bounds_findings (value (placed l.declarations.now))) l.broken l.known };

    #[tactic(auto, unfolding(crate::specs::Seen::left))]
    fn visit(&mut self, bounds: &Bounds<'_>) {
        let low = self.declarations.value(bounds.low);
        let high = self.declarations.value(bounds.high);
        note(
            &mut self.known,
            self.broken,
            rule::CROSSED_BOUNDS,
            crossed(self.declarations, bounds),
            Fault::CrossedBounds { low, high },
        );
        note(
            &mut self.known,
            self.broken,
            rule::LONG_ARRAY,
            too_long(self.declarations, bounds),
            Fault::Number {
                of: Quantity::Elements,
                value: high - low + 1,
            },
        );
    }
}

/// Looks through the findings of all bounds of a program.
pub(crate) fn look(known: &mut Option<Fault>, declarations: &Declarations<'_>, broken: Violation)
    ensures { let g = placed declarations.now in known.new ≡
        left (bounds_findings (value g)) broken known.old (decls_bounds g.decls []) }
{
    let mut look = BoundsLook {
        declarations,
        broken,
        known: *known,
    };
    visit_bounds(&mut look, declarations.program().decls.as_slice());
    *known = look.known;
}
