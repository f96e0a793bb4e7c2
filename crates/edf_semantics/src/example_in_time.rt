//! An image that meets the premise.

ghost use Rattle.edf_semantics.specs.ExampleInTime.{TwoMeetDeadlines, TwoMeetPremise};

/// Two processes that fill the processor: each activation ends by its deadline, whatever the
/// script.
pub fn two_processes()
    ensures premise { TwoMeetPremise }
    ensures deadlines { TwoMeetDeadlines }
{}
