//! Law: under earliest deadline first with ceilings no activation misses its deadline where the
//! demand is met at each point.
//!
//! It is told of abstract runs, by tick and process. `specs/Earliest.antt` has the premise, in
//! facts of one tick each, and what a run promises;
//! `specs/Activations.antt` the choice of the process that runs, `specs/Stacked.antt` what each
//! tick keeps. The demand and its points are those of
//! `sched_demand`. Nothing here can run.
//!
//! The laws.

ghost use Rattle.sched_theorem.specs.Dispatched.{Stay};
ghost use Rattle.sched_theorem.specs.Placed.{AreRanks};
ghost use Rattle.sched_demand.specs.declared.tasks.DemandTask.{DemandTask};
ghost use Rattle.sched_demand.specs.Demand.{demand_at, AreTasks, IsFeasible, IsPoint, IsReach};
ghost use Rattle.sched_demand.specs.Earliest.{deadline_at, IsEarliest, MeetsDeadlines, Run};
ghost use Rattle.sched_demand.specs.Activations.{Activation, Chooses, IsChosen, KeepsCeilings, Passes, Starts};
ghost use Rattle.sched_demand.specs.Stacked.{AreApart, AreDistinct, AreStacked};
ghost use Rattle.std.specs.Prelude.{◌+◌, ◌<◌, ◌≡◌, ◌≤◌, length, suc, Bool, List, None, Option, Some, ℕ};

/// The start events of a tick keep the stack.
pub fn releases_keep_the_stack()
    ensures { (n : ℕ) (rank deadline : ℕ → ℕ) (k : ℕ) (cost : ℕ → ℕ) (released : ℕ → Bool)
        (a b : ℕ → Activation) (inside : ℕ → Option Stay)
        → AreStacked n rank deadline k a inside
        → ((p : ℕ) → p < n → Starts k (released p) (cost p) (a p) (b p))
        → AreStacked n rank deadline (suc k) b inside }
{}

/// And so does the rest of a tick in which the chosen one runs.
pub fn choices_keep_the_stack()
    ensures { (n : ℕ) (rank deadline : ℕ → ℕ) (now : ℕ) (a b : ℕ → Activation)
        (inside inside_after : ℕ → Option Stay) (picked : Option ℕ)
        → AreDistinct n rank
        → AreStacked n rank deadline now a inside
        → Chooses n rank deadline inside a picked
        → Passes n picked a b
        → KeepsCeilings n picked inside inside_after
        → ((p : ℕ) (s : Stay) → p < n → inside_after p ≡ Some s → 1 ≤ (b p).left)
        → AreStacked n rank deadline now b inside_after }
{}

/// Who is chosen while it is outside monitors is above the ceilings of all monitors that somebody
/// is inside.
pub fn chosen_are_above()
    ensures { (n : ℕ) (rank deadline : ℕ → ℕ) (now : ℕ) (a : ℕ → Activation)
        (inside : ℕ → Option Stay) (p q : ℕ) (s : Stay)
        → AreStacked n rank deadline now a inside
        → IsChosen n rank deadline inside a p
        → inside p ≡ None
        → q < n
        → inside q ≡ Some s
        → rank p < s.ceiling }
{}

/// Of two processes inside monitors, one is above the ceiling of the other's monitor.
pub fn stacked_are_apart()
    ensures { (n : ℕ) (rank deadline : ℕ → ℕ) (now : ℕ) (a : ℕ → Activation)
        (inside : ℕ → Option Stay)
        → AreDistinct n rank
        → AreStacked n rank deadline now a inside
        → AreApart n rank inside }
{}

/// A missed deadline passes the demand at a point: an activation that is there at the tick of its
/// deadline, or after it, shows a point at which the demand is not met.
pub fn missed_deadlines_pass_a_point()
    ensures { (ts : List DemandTask) (rank place : ℕ → ℕ) (end due reach p : ℕ) (r : Run)
        → AreTasks ts
        → AreRanks (length ts) rank place
        → IsEarliest ts rank end r
        → end ≤ 1000000000
        → IsReach ts reach
        → due ≤ end
        → p < length ts
        → 1 ≤ (r.before due p).left
        → (r.before due p).release + deadline_at ts rank p ≤ due
        → (t : ℕ) × IsPoint ts reach t × (t < demand_at ts t) }
{}

/// Where the demand is met at each point, no deadline is missed.
pub fn feasible_runs_meet_deadlines()
    ensures { (ts : List DemandTask) (rank place : ℕ → ℕ) (end reach : ℕ) (r : Run)
        → AreTasks ts
        → AreRanks (length ts) rank place
        → IsEarliest ts rank end r
        → end ≤ 1000000000
        → IsReach ts reach
        → IsFeasible ts reach
        → MeetsDeadlines ts rank end r }
{}
