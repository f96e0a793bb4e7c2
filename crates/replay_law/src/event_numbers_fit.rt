//! Law: the numbers that the events of a run tell fit a line of a log.
//!
//! A reader of logs takes values of 32 bits, and exception numbers and counts of 16. So are those
//! of each run of a valid image whose operands have 32 bits, over a script that sets such values:
//! `specs/RunWords.antt` has it. The lemmas keep every word of the machine in 32 bits from tick to
//! tick, and no queue longer than there are processes. Nothing here can run.
//!
//! The law, for every image and every script.

ghost use Rattle.replay_law.specs.RunWords.{ValidRunsFit};

/// In a run of a valid image whose operands have 32 bits, over a script that sets values of 32
/// bits, the values of events have 32 bits, and exception numbers and counts 16.
pub fn valid_runs_fit()
    ensures { ValidRunsFit }
{
    vm_law::numbers_in_range::valid_operands_are_there();
    valid_image_law::validity_law::valid_meets_premises();
}
