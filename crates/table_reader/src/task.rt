//! The numbers of a process line.

ghost use Rattle.std.specs.Prelude.{◌≡◌, ◌<◌, ◌^◌, List, map, option_map, All, IfOk, IfSome, IsTrue, MatchOption};
ghost use Rattle.std.specs.Int.{IsInRange};
ghost use Rattle.text_fields.specs.LineFields.{value};
ghost use Rattle.table_format.specs.Spelling.{SaidStay, said};
ghost use Rattle.table_format.specs.Rules.{IsInRanges};
ghost use Rattle.table_format.specs.Faults.{IsFormed, is_numeral, meant, stay_meant};
ghost use Rattle.table_reader.specs.Judging.{AreNumbers, AreStays, HasNumerals, IsNumber, IsNumberIf};
ghost use Rattle.table_reader.specs.Reading.{bytes_of, line_seen, said_with, stay_of};

use crate::line::{HeadWords, LineWords, StayWords};
use out_of_memory::OutOfMemory;
use std::alloc::Global;
use syntax_tree::{List, Name};
use table_format::{TaskLine, TaskStay};
use text_fields::unsigned;

/// The greatest number of a table.
const GREATEST: u64 = 1_000_000_000;

/// The numbers of a process line but those of its stays, in ticks.
#[derive(Clone, Copy)]
struct Numbers {
    frame: u64,
    deadline: Option<u64>,
    first: Option<u64>,
    cost: u64,
}

/// The number that the word spells, if it is in this range.
fn ranged(word: &[u8], low: u64, high: u64) -> Option<u64>
    requires small { high < 2 ^ 32 }
    requires numeral { IsTrue (is_numeral word.now) }
    ensures { MatchOption result (¬ IsInRange low high (value word.now))
        (λ n. IsNumber low high word.now n) }
{
    match unsigned(word, high) {
        None => None,
        Some(number) => {
            if number < low {
                return None;
            }
            Some(number)
        }
    }
}

/// The same where the word may be left out.
fn ranged_if(word: Option<&[u8]>, low: u64, high: u64) -> Option<Option<u64>>
    requires small { high < 2 ^ 32 }
    requires numeral { IfSome (bytes_of word) (λ w. IsTrue (is_numeral w)) }
    ensures { MatchOption result
        (¬ IfSome (option_map value (bytes_of word.entry)) (λ n. IsInRange low high n))
        (λ number. IsNumberIf low high (bytes_of word.entry) number) }
{
    match word {
        None => Some(None),
        Some(word) => match ranged(word, low, high) {
            None => None,
            Some(number) => Some(Some(number)),
        },
    }
}

/// The numbers of a line but those of its stays; None where one is out of its range.
fn numbers_of(head: HeadWords<'_>) -> Option<Numbers>
    requires { HasNumerals head }
    ensures { MatchOption result
        ((stays : List SaidStay) → ¬ IsInRanges (meant (said_with head.entry stays)))
        (λ numbers. AreNumbers head.entry numbers) }
{
    let frame = ranged(head.frame, 10, GREATEST)?;
    let deadline = ranged_if(head.deadline, 10, frame)?;
    let first = ranged_if(head.first, 0, GREATEST)?;
    let cost = ranged(head.cost, 4, GREATEST)?;
    Some(Numbers {
        frame,
        deadline,
        first,
        cost,
    })
}

/// The stays of these words; None where one is out of its range.
fn stays_of(alloc: Global, words: &[StayWords<'_>]) -> Result<Option<List<TaskStay>>, OutOfMemory>
    requires { All (λ s. IsTrue (is_numeral s.ticks.now)) words.now }
    ensures { IfOk result (λ found. MatchOption found
        (¬ All (λ s. IsInRange 3 1000000000 s.ticks) (map stay_meant (map stay_of words.now)))
        (λ stays. AreStays (map stay_of words.now) stays)) }
{
    let mut stays = List::new(alloc);
    for word in words {
        let Some(ticks) = ranged(word.ticks, 3, GREATEST) else {
            return Ok(None);
        };
        let monitor = Name::new(alloc, word.monitor)?;
        stays.push(TaskStay { monitor, ticks })?;
    }
    Ok(Some(stays))
}

/// The name of an event, where there is one.
fn event_of(alloc: Global, word: Option<&[u8]>) -> Result<Option<Name>, OutOfMemory>
    ensures { IfOk result (λ event. event ≡ bytes_of word.entry) }
{
    match word {
        None => Ok(None),
        Some(word) => Ok(Some(Name::new(alloc, word)?)),
    }
}

/// The process line of these words; None where a number is out of its range.
pub fn task_of(alloc: Global, line: &LineWords<'_>) -> Result<Option<TaskLine>, OutOfMemory>
    requires { IsFormed (line_seen line.now) }
    ensures { IfOk result (λ found. MatchOption found (¬ IsInRanges (meant (line_seen line.now)))
        (λ task. (task ≡ meant (line_seen line.now)) × (said task ≡ line_seen line.now) × IsInRanges task)) }
{
    let Some(numbers) = numbers_of(line.head) else {
        return Ok(None);
    };
    let Some(stays) = stays_of(alloc, line.stays.as_slice())? else {
        return Ok(None);
    };
    let name = Name::new(alloc, line.head.name)?;
    let event = event_of(alloc, line.head.event)?;
    Ok(Some(TaskLine {
        name,
        event,
        frame: numbers.frame,
        deadline: numbers.deadline,
        first: numbers.first,
        cost: numbers.cost,
        stays,
    }))
}
