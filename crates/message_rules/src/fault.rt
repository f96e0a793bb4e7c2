//! What may be wrong with a program at a place.

ghost use Rattle.std.specs.Prelude.{◌≡◌, ◌==◌, ◌&&◌, ◌∷◌, []};
ghost use Rattle.static_numbers.specs.Processes.{is_at as is_at_of};
ghost use Rattle.message_rules.specs.Seen.{Looked};

use static_rule::Violation;
use syntax_tree::Place;

/// What a program may have so many of.
#[derive(Clone, Copy)]
pub(crate) enum Counted {
    Process,
    Monitor,
    Device,
    Event,
    Condition,
    Routine,
}

/// What a number is of, that is wrong by itself.
#[derive(Clone, Copy)]
pub(crate) enum Quantity {
    /// The elements of an array: too many.
    Elements,
    /// The turns of a loop: too many.
    Turns,
    /// The ticks of a frame: out of its range.
    Frame,
    /// The ticks of a first activation: out of its range.
    FirstActivation,
    /// The number of an exception that a statement raises: out of its range.
    RaisedNumber,
    /// A number of a handler: out of its range.
    HandlerNumber,
    /// A number that a handler lists twice.
    ListedNumber,
    /// The limit of a wait: out of its range.
    WaitLimit,
}

/// What is wrong, with the values that the program has there.
#[derive(Clone, Copy)]
pub(crate) enum Fault {
    /// A number is wrong by itself.
    Number { of: Quantity, value: i64 },
    /// A lower bound is above its upper bound.
    CrossedBounds { low: i64, high: i64 },
    /// A loop goes up to the greatest word.
    EndlessLoop,
    /// A deadline is below its range, or above its frame.
    Deadline { ticks: i64, frame: i64 },
    /// The event whose name stands there does not start exactly one process, but so many.
    EventUse { event: Place, processes: usize },
    /// There is no process.
    NoProcess,
    /// There is one of these too many.
    OneTooMany(Counted),
    /// The variables of processes and monitors have too many words.
    VariableWords { words: u64 },
}

/// Whether a rule fails at that place.
fn is_at(place: Place, fails: Option<Place>) -> bool
    ensures { result ≡ is_at_of place fails }
{
    match fails {
        Some(at) => at == place,
        None => false,
    }
}

/// Whether the rule with this number, where it fails, is the one that is asked for.
fn is_asked(broken: Violation, number: u8, fails: Option<Place>) -> bool
    ensures { result ≡ (number == broken.number && is_at_of broken.place fails) }
{
    number == broken.number && is_at(broken.place, fails)
}

/// Notes what is wrong where the rule with this number fails at that place, if that is asked and
/// nothing is known yet.
#[tactic(auto, unfolding(crate::specs::Seen::after))]
pub(crate) fn note(
    known: &mut Option<Fault>,
    broken: Violation,
    number: u8,
    fails: Option<Place>,
    wrong: Fault,
)
    ensures { Looked broken known.old
        (record { number = number; fails = fails; wrong = wrong } ∷ []) known.new }
{
    if known.is_none() && is_asked(broken, number, fails) {
        *known = Some(wrong);
    }
}
