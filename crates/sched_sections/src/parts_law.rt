//! What the parts add up to.
//!
//! The laws. These functions do nothing; their contracts are the laws.

ghost use Rattle.std.specs.Prelude.{◌≡◌, ◌≤◌, ◌<◌, ◌+◌, ℕ, List, length};
ghost use Rattle.sched_response.specs.declared.tasks.Task.{Task};
ghost use Rattle.sched_response.specs.Demand.{task_at, deadline_at, demand_at, exact_demand_at, AreTasks, IsBound, Solves};
ghost use Rattle.sched_sections.specs.Load.{load};
ghost use Rattle.sched_sections.specs.Parts.{sum, sum_of_parts};

/// The parts of a level are the whole of its demand: exactly, and then capped. Where the sum is
/// counted, it is the number of the demand as it stands.
pub fn parts_are_the_whole()
    ensures exact { (ts : List Task) (level r : ℕ) → level < length ts →
        sum_of_parts ts level r ≡ exact_demand_at ts level r }
    ensures capped { (ts : List Task) (level r : ℕ) → level < length ts →
        sum ts level r ≡ demand_at ts level r }
    ensures counted { (ts : List Task) (level r : ℕ) → level < length ts →
        demand_at ts level r ≤ 1000000000 → sum_of_parts ts level r ≡ demand_at ts level r }
{}

/// Where a level has a least bound and runs at all, its parts in the ticks of the bound add up to
/// the bound.
pub fn parts_of_a_bound_are_the_bound()
    ensures { (ts : List Task) (level bound : ℕ) → AreTasks ts → level < length ts →
        1 ≤ (task_at ts level).run → IsBound ts level bound → sum ts level bound ≡ bound }
{}

/// Where it has none, its parts in the ticks of the deadline add up to more than the deadline.
pub fn parts_without_a_bound_are_past_the_deadline()
    ensures { (ts : List Task) (level : ℕ) → AreTasks ts → level < length ts →
        ((r : ℕ) → ¬ Solves ts level r) →
        deadline_at ts level < sum ts level (deadline_at ts level) }
{}

/// Tasks that are in time load the processor no more than wholly: each share is less than a
/// millionth above what it stands for, so the load in millionths is below a million and the number
/// of tasks.
pub fn timely_tasks_load_no_more_than_all()
    ensures { (ts : List Task) → AreTasks ts →
        ((level : ℕ) → level < length ts → (r : ℕ) × Solves ts level r) →
        load ts < 1000000 + length ts }
{}
