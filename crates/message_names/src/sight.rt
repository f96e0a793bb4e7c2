//! What counts as in reach at a place.

ghost use Rattle.std.specs.Prelude.{◌≡◌};
ghost use Rattle.message_names.specs.Reach.{before, is_seen, reaches};

use crate::role::{Reach, is_entry};
use syntax_tree::Place;

/// What counts as in reach where a name stands.
#[derive(Clone, Copy)]
pub(crate) enum Sight {
    /// All that reaches there.
    Around,
    /// Of the monitor whose name stands at that place, its entries and what of it reaches there.
    Members(Place),
    /// What reaches there, of the scope that begins at that place only what stands before.
    Others(Place),
}

/// Whether one place stands before another, by line and then by column.
pub(crate) fn before(place: Place, other: Place) -> bool
    ensures { result ≡ before place other }
{
    place.line < other.line || (place.line == other.line && place.col < other.col)
}

/// Whether a declaration reaches that place.
fn reaches(reach: Reach, place: Place) -> bool
    ensures { result ≡ reaches reach place }
{
    before(reach.from, place) && !before(reach.scope.end, place)
}

/// Whether a declaration that stands `at` a place counts as in reach at another.
pub(crate) fn is_seen(sight: Sight, place: Place, at: Place, reach: Reach) -> bool
    ensures { result ≡ is_seen sight place at reach }
{
    match sight {
        Sight::Around => reaches(reach, place),
        Sight::Members(monitor) => {
            reach.scope.begin == monitor && (is_entry(reach.what) || reaches(reach, place))
        }
        Sight::Others(scope) => {
            reaches(reach, place) && (reach.scope.begin != scope || before(at, place))
        }
    }
}
