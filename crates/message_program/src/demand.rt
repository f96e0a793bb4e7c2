//! The message for a program that earliest deadlines do not bring in time.

ghost use Rattle.std.specs.Prelude.{◌≡◌, ◌++◌, IfOk, OnOk};
ghost use Rattle.message_program.specs.Late.{demand_message, needed, too_many};
ghost use Rattle.message_text.specs.Words.{plain};

use message_text::add_plain;
use out_of_memory::OutOfMemory;
use sched_demand::Judgement;
use sched_table::add_number;
use std::alloc::Global;
use syntax_tree::Text;

/// Puts the ticks that may be needed within some ticks, each number as in the report.
fn add_needed(text: &mut Text, within: u64, demand: u64) -> Result<(), OutOfMemory>
    ensures { OnOk result (text.new ≡ text.old ++ needed within demand) }
{
    add_number(text, ": late: within ", within)?;
    add_number(text, " ticks the processes may need ", demand)?;
    text.extend(b" ticks\n")
}

/// Tells that so many ticks may be needed within some ticks.
fn tell_needed(alloc: Global, file: &[u8], within: u64, demand: u64) -> Result<Text, OutOfMemory>
    ensures { IfOk result (λ text. text ≡ plain file.now ++ needed within demand) }
{
    let mut text = Text::new(alloc);
    add_plain(&mut text, file)?;
    add_needed(&mut text, within, demand)?;
    Ok(text)
}

/// Tells that the points of the test are too many.
fn tell_too_many(alloc: Global, file: &[u8]) -> Result<Text, OutOfMemory>
    ensures { IfOk result (λ text. text ≡ plain file.now ++ too_many) }
{
    let mut text = Text::new(alloc);
    add_plain(&mut text, file)?;
    text.extend(b": too many: the test would look at more than 1000000 points\n")?;
    Ok(text)
}

/// The message for a program of which the test of the demand says this: how many ticks may be
/// needed within some ticks, or that the points are too many to look at. It is empty where the
/// demand is met.
#[tactic(auto, unfolding(crate::specs::Late::demand_message))]
pub fn demand_message(alloc: Global, file: &str, answer: &Judgement) -> Result<Text, OutOfMemory>
    ensures { IfOk result (λ message. message ≡ demand_message file.now answer.now) }
{
    match *answer {
        Judgement::Feasible { .. } => Ok(Text::new(alloc)),
        Judgement::Late { at, demand, .. } => tell_needed(alloc, file.as_bytes(), at, demand),
        Judgement::Many => tell_too_many(alloc, file.as_bytes()),
    }
}
