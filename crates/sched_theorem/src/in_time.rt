//! The laws of the timing argument. Each is a function that does nothing, and its contract is the
//! law.
//!
//! First charges, stretches and releases, as in response-time analysis; then what they give of a
//! run, in three forms: where each busy tick has a charge, where the run is dispatched under
//! immediate priority ceilings with the processes in the order of their ranks, and the same with
//! the processes in any order.

ghost use Rattle.sched_theorem.specs.Charges.{claim, claims, Charge, ChargedCost, Paid};
ghost use Rattle.sched_theorem.specs.Deadlines.{AsksMore, IsDueBy};
ghost use Rattle.sched_theorem.specs.Dispatched.{AreApart, Dispatch, IsDispatched, KeepsStays, RunsAbove, Stay};
ghost use Rattle.sched_theorem.specs.InTime.{AreBounds, IsInTime, MeetsDeadlines};
ghost use Rattle.sched_theorem.specs.Placed.{AreRanks, IsInTimeAt, IsPlaced, MeetsDeadlinesAt};
ghost use Rattle.sched_theorem.specs.Ranked.{cost_at, IsRanked};
ghost use Rattle.sched_theorem.specs.Stretches.{releases, AreCharged, IsRun, IsStretch, Began, NoneActive, SomeActive, Spaced, Trace};
ghost use Rattle.sched_response.specs.declared.tasks.Task.{Task};
ghost use Rattle.sched_response.specs.Demand.{task_at, Solves};
ghost use Rattle.sched_theorem.specs.Limited.{AreLimited};
ghost use Rattle.std.specs.Int.{div_ceil};
ghost use Rattle.std.specs.Prelude.{◌+◌, ◌<◌, ◌≡◌, ◌≤◌, length, suc, true, Bool, List, Option, Some, ℕ};

/// Charges that are paid for, with the execution that is left, are no more than one stay and what
/// the activations claim.
///
/// Suspension is counted as execution. Blocking is counted once for each piece, and the pieces
/// between waits are at most one more than the waits: each wait claims one stay, and one is left
/// over.
pub fn charges_are_claimed()
    ensures { (n : ℕ) (count : ℕ → ℕ) (cost : ℕ → ChargedCost) (stay pieces left : ℕ)
        (charges : List Charge)
        → Paid n count cost stay pieces left charges
        → length charges + left ≤ stay + claims n count cost stay }
{}

/// A stretch is no longer than a number of ticks that covers one stay and what the activations
/// released in so many ticks claim.
///
/// This is the step of response-time analysis from the recurrence to the length of a busy period.
/// `counts j` is any number that the releases of rank j in these ticks do not pass, where the run
/// goes on for so long.
pub fn stretches_are_claimed()
    ensures { (n : ℕ) (cost : ℕ → ChargedCost) (most end : ℕ) (t : Trace) (stay : ℕ → ℕ)
        (start ticks bound : ℕ) (counts : ℕ → ℕ)
        → IsRun n cost end t
        → AreCharged n most end t stay
        → IsStretch n t start ticks
        → start + ticks ≤ end
        → 0 < bound
        → (start + bound ≤ end
        → (j : ℕ) → j < n → releases (λ k. t.released k j) start bound ≤ counts j)
        → most + claims n counts cost most ≤ bound
        → ticks ≤ bound }
{}

/// Each busy tick is in a stretch, where at first nobody is active.
pub fn busy_ticks_are_in_stretches()
    ensures { (n : ℕ) (cost : ℕ → ChargedCost) (end : ℕ) (t : Trace) (tick : ℕ)
        → IsRun n cost end t
        → NoneActive n (t.before 0)
        → tick < end
        → SomeActive n (t.after tick)
        → Began n t tick }
{}

/// Releases that stand at least a frame apart are no more, in so many ticks, than the ticks by the
/// frame, rounded up.
pub fn releases_are_few()
    ensures { (frame end : ℕ) (released : ℕ → Bool) (start ticks : ℕ)
        → 0 < frame
        → Spaced frame end released
        → start + ticks ≤ end
        → releases released start ticks ≤ div_ceil ticks frame }
{}

/// Where somebody is active at the tick by which all deadlines fall, the demand by then of the
/// stretch up to it passes its length.
///
/// This is the step of the processor-demand test for earliest deadline first: a missed deadline
/// asks for more.
pub fn missed_deadlines_ask_more()
    ensures { (n : ℕ) (cost : ℕ → ChargedCost) (frame deadline : ℕ → ℕ) (most end due : ℕ)
        (t : Trace) (stay : ℕ → ℕ)
        → IsRun n cost end t
        → AreCharged n most end t stay
        → IsDueBy n frame deadline end due t
        → NoneActive n (t.before 0)
        → due ≤ end
        → SomeActive n (t.before due)
        → AsksMore n cost frame deadline most due t }
{}

/// A run in which each busy tick of each level has a charge is in time, where each level has a
/// bound.
pub fn ranked_runs_are_in_time()
    ensures { (ts : List Task) (bounds : ℕ → ℕ) (end : ℕ) (t : Trace) (stay : ℕ → ℕ → ℕ)
        → AreLimited ts
        → AreBounds ts bounds
        → IsRanked ts end t stay
        → IsInTime ts bounds end t }
{}

/// A run that is dispatched under immediate priority ceilings is in time, where each level has a
/// bound.
///
/// In a piece, that is a row of ticks of a stretch in which nobody of the level waits, a lower
/// process runs only inside a monitor that it entered before the piece, and there is at most one
/// such process: so a piece is blocked for at most one stay.
pub fn dispatched_runs_are_in_time()
    ensures { (ts : List Task) (bounds : ℕ → ℕ) (end : ℕ) (t : Trace) (d : Dispatch)
        → AreLimited ts
        → AreBounds ts bounds
        → IsDispatched ts end t d
        → IsInTime ts bounds end t }
{}

/// The same where the processes stand in any order of places, and have their ranks by a numbering
/// of its own.
pub fn placed_runs_are_in_time()
    ensures { (ts : List Task) (rank place bounds : ℕ → ℕ) (end : ℕ) (t : Trace) (d : Dispatch)
        → AreLimited ts
        → AreBounds ts bounds
        → AreRanks (length ts) rank place
        → IsPlaced ts rank end t d
        → IsInTimeAt ts rank place bounds end t }
{}

/// Where each level has a bound, which is within its deadline, and a run is in time, each
/// activation ends within its deadline: so it is for processes in the order of their ranks, and for
/// those in any order of places.
pub fn activations_meet_deadlines()
    ensures ranked { (ts : List Task) (bounds : ℕ → ℕ) (end : ℕ) (t : Trace)
        → AreBounds ts bounds
        → IsInTime ts bounds end t
        → MeetsDeadlines ts bounds end t }
    ensures placed { (ts : List Task) (rank place bounds : ℕ → ℕ) (end : ℕ) (t : Trace)
        → AreBounds ts bounds
        → AreRanks (length ts) rank place
        → IsInTimeAt ts rank place bounds end t
        → MeetsDeadlinesAt ts rank bounds end t }
{}

/// A bound of a level covers one activation of each rank up to the level, with the level's block
/// for each of its waits, and so no run cost or suspension of theirs passes it.
pub fn bounds_cover_activations()
    ensures { (ts : List Task) (level bound j : ℕ)
        → AreLimited ts
        → level < length ts
        → Solves ts level bound
        → j ≤ level
        → claim (task_at ts level).block (cost_at ts j) ≤ bound }
{}

/// Processes inside monitors stay apart in a tick in which one runs that ranks, where it is outside
/// monitors, above each ceiling of those inside.
///
/// This is what immediate priority ceilings keep from tick to tick; no run is spoken of.
pub fn processes_stay_apart()
    ensures { (n p : ℕ) (inside inside_after : ℕ → Option Stay)
        → AreApart n inside
        → KeepsStays n (Some p) inside inside_after
        → RunsAbove n inside p
        → AreApart n inside_after }
{}
