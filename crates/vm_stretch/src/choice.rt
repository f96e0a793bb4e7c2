//! Which process runs.

ghost use Rattle.std.specs.Prelude.{◌≡◌, ◌+◌, ◌∷◌, List, Some};
ghost use Rattle.vm_stretch.specs.Pick.{entry_of, foremost_from, joined, key, place_of};
ghost use Rattle.vm_stretch.specs.declared.choice.Contender.{Contender};

/// How a process stands in the choice: whether it is ready, its active rank, and whether it is
/// inside a monitor.
#[derive(Clone, Copy)]
pub struct Contender {
    pub ready: bool,
    pub active: u16,
    pub inside: bool,
}

/// The foremost of the ready processes that were looked at: its place, and what it is chosen by.
#[derive(Clone, Copy)]
pub struct Best {
    place: usize,
    key: u32,
}

/// What a process is chosen by: a lesser number comes before.
#[inline(always)]
fn key_of(standing: &Contender) -> u32
    ensures { result ≡ key standing.now }
{
    2 * u32::from(standing.active) + u32::from(!standing.inside)
}

/// The one that comes before; of two alike the first.
#[inline(always)]
fn sooner_of(best: Option<Best>, next: Best) -> Option<Best>
    ensures { entry_of result ≡ joined (entry_of best) (entry_of (Some next)) }
{
    match best {
        Some(found) => {
            if next.key < found.key {
                Some(next)
            } else {
                Some(found)
            }
        }
        None => Some(next),
    }
}

/// The foremost once the process at this place is looked at too, after all at lesser places: it is
/// the ready one with the least active rank, one inside a monitor before one outside, then the
/// least place. `None` exactly where none is ready so far.
#[inline(always)]
pub fn foremost_with(best: Option<Best>, place: usize, standing: &Contender) -> Option<Best>
    ensures { (rest : List Contender) → joined (entry_of result) (foremost_from (place + 1) rest) ≡
        joined (entry_of best) (foremost_from place (standing.now ∷ rest)) }
{
    if !standing.ready {
        return best;
    }
    let next = Best {
        place,
        key: key_of(standing),
    };
    sooner_of(best, next)
}

/// The place of the foremost, if there is one.
pub fn place_found(best: Option<Best>) -> Option<usize>
    ensures { result ≡ place_of (entry_of best) }
{
    match best {
        Some(found) => Some(found.place),
        None => None,
    }
}
