//! The laws.

ghost use Rattle.sched_program.specs.Ranked.{RanksAgree, CeilingsAgree};

/// The ranks that are counted of what the processes use are those of the program.
pub fn ranks_agree()
    ensures { RanksAgree }
{}

/// The ceilings by such ranks are those of the program.
pub fn ceilings_agree()
    ensures { CeilingsAgree }
{}
