//! The first failure of rules.

ghost use Rattle.std.specs.Prelude.{◌≡◌};
ghost use Rattle.static_rule.specs.First.{comes_before, sooner as sooner_of};
ghost use Rattle.static_rule.specs.Parts.{blame as blamed};

use syntax_tree::Place;

/// A rule that fails, by its number, at a place.
#[derive(Clone, Copy, PartialEq, Eq)]
pub struct Violation {
    pub number: u8,
    pub place: Place,
}

/// Whether the first comes before the second: by line, then by column, then by number.
fn is_before(x: Violation, y: Violation) -> bool
    ensures { result ≡ comes_before x y }
{
    x.place.line < y.place.line
        || (x.place.line == y.place.line
            && (x.place.col < y.place.col || (x.place.col == y.place.col && x.number < y.number)))
}

/// The one of two failures that comes first, if there is any.
pub fn sooner(x: Option<Violation>, y: Option<Violation>) -> Option<Violation>
    ensures { result ≡ sooner_of x y }
{
    match (x, y) {
        (None, _) => y,
        (_, None) => x,
        (Some(one), Some(other)) => { if is_before(one, other) { x } else { y } }
    }
}

/// Notes that the rule of this number fails at the place, if there is one.
pub fn blame(first: &mut Option<Violation>, number: u8, place: Option<Place>)
    ensures { first.new ≡ blamed first.old number place }
{
    if let Some(place) = place {
        *first = sooner(Some(Violation { number, place }), *first);
    }
}
