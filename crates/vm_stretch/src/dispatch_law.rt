//! The choice of code is that of the machine's meaning.
//!
//! The law.

ghost use Rattle.vm_stretch.specs.Picks.{PickIsForemost};

/// Of processes that stand so, the foremost is the one that the meaning picks.
pub fn pick_is_foremost()
    ensures { PickIsForemost }
{}
