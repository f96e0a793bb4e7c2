//! The law of ranks.

ghost use Rattle.std.specs.Prelude.{ℕ, List};
ghost use Rattle.sched_response.specs.Ranked.{AreCounted, AreRanks};
ghost use Rattle.sched_response.specs.declared.uses.Use.{Use};

/// Where ranks are 1 up to the number of processes, and who ranks higher has the smaller number,
/// the rank of each process is one more than the number of those that rank higher.
pub fn ranks_are_counted()
    ensures { (us : List Use) (ranks : List ℕ) → AreRanks us ranks → AreCounted us ranks }
{}
