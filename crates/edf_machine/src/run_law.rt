//! The law, for every image and every script.

ghost use Rattle.edf_machine.specs.Coming.{AllIsToCome};

/// Before the first tick the whole run is still to come.
pub fn all_is_to_come()
    ensures { AllIsToCome }
{}
