//! The law.

ghost use Rattle.edf_semantics.specs.InTime.{EveryRunMeetsDeadlines};

/// Every activation of an image whose demand is met at each point ends by its deadline.
pub fn every_run_meets_deadlines()
    ensures { EveryRunMeetsDeadlines }
{}
