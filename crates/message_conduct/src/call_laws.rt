//! Where there is a sentence. This function does nothing; its contract is the law.

ghost use Rattle.message_conduct.specs.CallLaws.{TellsRounds, TellsHandlers};

/// A sentence is there exactly where a routine reaches itself, and wherever a handler reaches a
/// wait.
pub fn tells_calls()
    ensures rounds { TellsRounds }
    ensures handlers { TellsHandlers }
{}
