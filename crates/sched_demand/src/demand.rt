//! The row that has to be tested is one and the same for whoever asks.

ghost use Rattle.std.specs.Prelude.{◌≡◌, ℕ, List};
ghost use Rattle.sched_demand.specs.declared.tasks.DemandTask.{DemandTask};
ghost use Rattle.sched_demand.specs.Demand.{AreTasks, IsReach};

/// Each set of tasks has one reach, and no other.
pub fn each_set_has_one_reach()
    ensures some { (ts : List DemandTask) → AreTasks ts → (reach : ℕ) × IsReach ts reach }
    ensures one { (ts : List DemandTask) (reach other : ℕ) → IsReach ts reach → IsReach ts other →
        reach ≡ other }
{}
