//! What capping costs: nothing, since every deadline is within the cap.

ghost use Rattle.std.specs.Prelude.{◌≡◌, ◌≤◌, ◌↔◌, ℕ, List, map};
ghost use Rattle.sched_response.specs.declared.tasks.Task.{Task};
ghost use Rattle.sched_response.specs.Demand.{capped, demand_at, exact_demand_at};

/// Capping changes no answer of the recurrence: a response of at most 1,000,000,000 ticks meets it
/// with the demand capped exactly where it does with the exact demand, whether or not the numbers
/// of the tasks were capped before.
pub fn capping_changes_no_answer()
    ensures demands { (ts : List Task) (level r : ℕ) → r ≤ 1000000000 →
        (demand_at ts level r ≤ r) ↔ (exact_demand_at ts level r ≤ r) }
    ensures costs { (ts : List Task) (level r : ℕ) → demand_at (map capped ts) level r ≡
        demand_at ts level r }
{}
