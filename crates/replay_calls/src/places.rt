//! Places in arrays.

ghost use Rattle.std.specs.Prelude.{◌≡◌};
ghost use Rattle.source_semantics.specs.Store.{place_at as place_of_index};

/// The place of an index in an array of these words, which begins with the one at `low`; `None` out
/// of its bounds.
pub fn place_at(low: i64, words: &[i64], index: i64) -> Option<usize>
    ensures { result ≡ place_of_index low words.now index }
{
    let at = index.checked_sub(low)?;
    if at < 0 {
        return None;
    }
    let at = usize::try_from(at).ok()?;
    if at < words.len() { Some(at) } else { None }
}
