//! The piece of code that comes to the first place.

ghost use Rattle.std.specs.Prelude.{◌≡◌, ◌<◌, ◌+◌, drop, length};
ghost use Rattle.code_names.specs.Goals.{calls_at, earliest_of, nearer as defined_nearer, reached_from, IsFirst};

use crate::places::{calls_of, earliest};
use syntax_tree::List;

/// A piece of code that comes to a place.
#[derive(Clone, Copy)]
pub struct Reached {
    /// The place.
    pub place: usize,
    /// The number of the piece.
    pub piece: usize,
}

/// What is reached first where a piece before all others comes to this place, if to any.
fn nearer(piece: usize, place: Option<usize>, best: Option<Reached>) -> Option<Reached>
    ensures { result ≡ defined_nearer piece place best }
{
    match (place, best) {
        (None, _) => best,
        (Some(place), None) => Some(Reached { place, piece }),
        (Some(place), Some(other)) => {
            if place <= other.place {
                Some(Reached { place, piece })
            } else {
                Some(other)
            }
        }
    }
}

/// What is reached first from one of the pieces and those after it.
fn nearer_with(
    row: &[Option<usize>],
    calls: &[List<usize>],
    pieces: &[usize],
    index: usize,
    best: Option<Reached>,
) -> Option<Reached>
    requires index { index < length pieces.now }
    requires best { best ≡ reached_from row.now calls.now (drop (index + 1) pieces.now) }
    ensures { result ≡ reached_from row.now calls.now (drop index pieces.now) }
{
    let piece = pieces[index];
    nearer(piece, earliest(row, calls_of(calls, piece)), best)
}

/// The first place that the pieces come to by what they call, whose places the row has, and the
/// first of the pieces that come to it; None where none comes to a place.
pub fn first_reached(
    row: &[Option<usize>],
    calls: &[List<usize>],
    pieces: &[usize],
) -> Option<Reached>
    ensures { IsFirst (λ k. earliest_of row.now (calls_at calls.now k)) pieces.now result }
{
    let mut best = None;
    for index in (0..pieces.len()).rev() {
        best = nearer_with(row, calls, pieces, index, best);
    }
    best
}
