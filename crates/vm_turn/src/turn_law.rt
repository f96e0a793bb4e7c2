//! The law, for every image and every script.

ghost use Rattle.vm_turn.specs.Settle.{TurnCanPass};

/// In a run that is never stuck and stays within its stacks, the process that is picked can take
/// the ticks of a turn.
pub fn turn_can_pass()
    ensures { TurnCanPass }
{}
