//! The bounds of types.

ghost use Rattle.std.specs.Prelude.{◌≡◌, []};
ghost use Rattle.syntax_tree.specs.Placed.{placed};
ghost use Rattle.static_rule.specs.First.{IsFirstOf};
ghost use Rattle.static_rule.specs.Parts.{FailsAmong};
ghost use Rattle.static_declarations.specs.Values.{value};
ghost use Rattle.static_numbers.specs.Types.{crossed as crossed_of, too_long as too_long_of, decls_bounds};
ghost use Rattle.static_numbers.specs.Rules.{bounds_rules};
ghost use Rattle.static_numbers.specs.Seen.{bounds_of};

use crate::visit::{BoundsVisitor, visit_bounds};
use static_declarations::Declarations;
use static_rule::{Violation, blame, rule};
use syntax_tree::{Constant, Place};

/// An array has at most so many elements.
const LONGEST: i64 = 65_536;

/// Two bounds: of a subrange, or of an array.
#[derive(Clone, Copy)]
pub struct Bounds<'t> {
    pub of_array: bool,
    pub low: &'t Constant,
    pub high: &'t Constant,
}

/// The place of a lower bound that is above its upper bound.
pub fn crossed(declarations: &Declarations<'_>, bounds: &Bounds<'_>) -> Option<Place>
    ensures { result ≡ crossed_of (value (placed declarations.now)) (bounds_of bounds.now) }
{
    if declarations.value(bounds.high) < declarations.value(bounds.low) {
        Some(bounds.low.place)
    } else {
        None
    }
}

/// The place of the lower bound of an array that is too long.
pub fn too_long(declarations: &Declarations<'_>, bounds: &Bounds<'_>) -> Option<Place>
    ensures { result ≡ too_long_of (value (placed declarations.now)) (bounds_of bounds.now) }
{
    let low = declarations.value(bounds.low);
    let high = declarations.value(bounds.high);
    if bounds.of_array && low + LONGEST <= high {
        Some(bounds.low.place)
    } else {
        None
    }
}

/// Tries the rules on bounds.
#[derive(Drop)]
struct BoundsTrial<'d, 'p> {
    declarations: &'d Declarations<'p>,
    first: Option<Violation>,
}

impl BoundsVisitor for BoundsTrial<'_, '_> {
    ghost use Rattle.std.specs.Prelude.{Option};
    ghost use Rattle.static_rule.specs.declared.violation.Violation.{Violation as SpecViolation};
    ghost use Rattle.static_rule.specs.Parts.{noted};

    ghost Found = { Option SpecViolation };

    ghost found = { λ t. noted (bounds_rules (placed t.declarations.now)) t.first };

    fn visit(&mut self, bounds: &Bounds<'_>) {
        let declarations = self.declarations;
        blame(
            &mut self.first,
            rule::CROSSED_BOUNDS,
            crossed(declarations, bounds),
        );
        blame(
            &mut self.first,
            rule::LONG_ARRAY,
            too_long(declarations, bounds),
        );
    }
}

/// The rule for bounds of types that fails first, if any does.
pub(crate) fn first_broken(declarations: &Declarations<'_>) -> Option<Violation>
    ensures { let g = placed declarations.now in IsFirstOf
        (FailsAmong (bounds_rules g) (decls_bounds g.decls [])) result }
{
    let mut trial = BoundsTrial {
        declarations,
        first: None,
    };
    visit_bounds(&mut trial, declarations.program().decls.as_slice());
    trial.first
}
