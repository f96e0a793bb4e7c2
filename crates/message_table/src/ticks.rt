//! Ticks that are outside their range, or that cannot be met.

ghost use Rattle.std.specs.Prelude.{◌≡◌, ◌+◌, ◌≤◌, find, map, option_map};
ghost use Rattle.std.specs.List.{list_any};
ghost use Rattle.message_table.specs.Found.{found_at as found_of, ticks_fault};
ghost use Rattle.message_table.specs.Seen.{mark_of};
ghost use Rattle.message_table.specs.Ticks.{cost_fault as cost_fault_in, four_or_five, frame_of as frame_in};
ghost use Rattle.message_table.specs.Ticks.{is_cost as cost_test, is_cost_part as cost_part_test};
ghost use Rattle.message_table.specs.Ticks.{is_frame as frame_test, is_frame_part as frame_part_test};
ghost use Rattle.message_table.specs.Ticks.{is_out as out_test, is_out_of_range as range_test};
ghost use Rattle.message_table.specs.Ticks.{is_stay_ticks as stay_test, is_ticks as ticks_test};
ghost use Rattle.message_table.specs.Ticks.{is_unmet_stay as unmet_test, least as least_of};
ghost use Rattle.message_table.specs.Ticks.{least_cost as least_cost_of, most as most_of, out_of_range};
ghost use Rattle.message_table.specs.Ticks.{range_found as range_in, stay_cost as stay_cost_of};
ghost use Rattle.message_table.specs.Ticks.{unmet_cost, unmet_found as unmet_in, unmet_stay};

use crate::fault::{Fault, Found, TicksFault};
use crate::mark::Marked;
use crate::numerals::ticks;
use crate::part::{Part, Role};

/// The least ticks of a part.
pub(crate) fn least(part: Part) -> u64
    ensures { result ≡ least_of part }
{
    match part {
        Part::Frame | Part::EventFrame | Part::Deadline | Part::EventDeadline => 10,
        Part::Cost => 4,
        Part::Stay => 3,
        _ => 0,
    }
}

/// The most ticks of a part in a line with this frame.
fn most(part: Part, frame: u64) -> u64
    ensures { result ≡ most_of part frame }
{
    match part {
        Part::Deadline | Part::EventDeadline => frame,
        _ => 1_000_000_000,
    }
}

/// Whether a word is the ticks of a part.
fn is_ticks(role: Role) -> bool
    ensures { result ≡ ticks_test role }
{
    matches!(role, Role::Ticks { .. })
}

/// Whether a part is a frame.
fn is_frame_part(part: Part) -> bool
    ensures { result ≡ frame_part_test part }
{
    matches!(part, Part::Frame | Part::EventFrame)
}

/// Whether a part is a cost.
fn is_cost_part(part: Part) -> bool
    ensures { result ≡ cost_part_test part }
{
    matches!(part, Part::Cost)
}

/// Whether a word is the frame of a line.
fn is_frame(mark: &Marked<'_>) -> bool
    ensures { result ≡ frame_test (mark_of mark.now) }
{
    is_ticks(mark.role) && is_frame_part(mark.role.part())
}

/// Whether a word is the cost of a line.
fn is_cost(mark: &Marked<'_>) -> bool
    ensures { result ≡ cost_test (mark_of mark.now) }
{
    is_ticks(mark.role) && is_cost_part(mark.role.part())
}

/// Whether a word is the ticks of a stay.
fn is_stay_ticks(mark: &Marked<'_>) -> bool
    ensures { result ≡ stay_test (mark_of mark.now) }
{
    is_ticks(mark.role) && mark.role.part().is_stay()
}

/// What is wrong with the ticks at a word.
fn found_at(mark: &Marked<'_>, fault: TicksFault) -> Found
    ensures { result ≡ found_of (mark_of mark.now) (ticks_fault fault) }
{
    Found {
        column: mark.column,
        width: mark.word.len(),
        fault: Fault::Ticks { fault },
    }
}

/// The frame of a line, 0 where it has none.
fn frame_of(marks: &[Marked<'_>]) -> u64
    ensures { result ≡ frame_in (map mark_of marks.now) }
{
    for mark in marks {
        if is_frame(mark) {
            return ticks(mark.word);
        }
    }
    0
}

/// Whether a word is outside the range of a part.
fn is_out(frame: u64, part: Part, word: &[u8]) -> bool
    ensures { result ≡ out_test frame part word.now }
{
    let ticks = ticks(word);
    ticks < least(part) || most(part, frame) < ticks
}

/// Whether a word is ticks outside the range of their part.
fn is_out_of_range(frame: u64, mark: &Marked<'_>) -> bool
    ensures { result ≡ range_test frame (mark_of mark.now) }
{
    is_ticks(mark.role) && is_out(frame, mark.role.part(), mark.word)
}

/// The first ticks outside their range, in a line with this frame.
fn first_out_of_range(frame: u64, marks: &[Marked<'_>]) -> Option<Found>
    ensures { result ≡ option_map (out_of_range frame)
        (find (range_test frame) (map mark_of marks.now)) }
{
    for mark in marks {
        if is_out_of_range(frame, mark) {
            let of = mark.role.part();
            return Some(found_at(mark, TicksFault::OutOfRange { of, frame }));
        }
    }
    None
}

/// The first ticks of a line that are outside their range.
pub(crate) fn range_found(marks: &[Marked<'_>]) -> Option<Found>
    ensures { result ≡ range_in (map mark_of marks.now) }
{
    first_out_of_range(frame_of(marks), marks)
}

/// Whether no stay can be so many ticks, between the least one and the next.
fn is_unmet(ticks: u64) -> bool
    ensures { result ≡ four_or_five ticks }
{
    ticks == 4 || ticks == 5
}

/// Whether a word is a stay that cannot be met.
fn is_unmet_stay(mark: &Marked<'_>) -> bool
    ensures { result ≡ unmet_test (mark_of mark.now) }
{
    is_stay_ticks(mark) && is_unmet(ticks(mark.word))
}

/// The first stay that cannot be met.
fn first_unmet_stay(marks: &[Marked<'_>]) -> Option<Found>
    ensures { result ≡ option_map unmet_stay (find unmet_test (map mark_of marks.now)) }
{
    for mark in marks {
        if is_unmet_stay(mark) {
            return Some(found_at(mark, TicksFault::Stay));
        }
    }
    None
}

/// What a stay costs.
fn stay_cost(mark: &Marked<'_>) -> u64
    ensures is { result ≡ stay_cost_of (mark_of mark.now) }
    ensures within { result ≤ 1000000016 }
{
    if is_stay_ticks(mark) {
        return 15 + ticks(mark.word);
    }
    0
}

/// The least cost of a line, and so many more ticks.
fn cost_with(marks: &[Marked<'_>], more: u64) -> u128
    ensures { result ≡ least_cost_of (map mark_of marks.now) + more }
{
    let mut least = 4 + u128::from(more);
    for mark in marks {
        least += u128::from(stay_cost(mark));
    }
    least
}

/// Whether a line has stays.
fn has_stays(marks: &[Marked<'_>]) -> bool
    ensures { result ≡ list_any stay_test (map mark_of marks.now) }
{
    for mark in marks {
        if is_stay_ticks(mark) {
            return true;
        }
    }
    false
}

/// What is wrong with the cost of a line.
fn cost_fault(marks: &[Marked<'_>]) -> TicksFault
    ensures { result ≡ cost_fault_in (map mark_of marks.now) }
{
    if has_stays(marks) {
        return TicksFault::CostWithStays {
            least: cost_with(marks, 0),
            more: cost_with(marks, 3),
        };
    }
    TicksFault::Cost
}

/// The cost of a line, if it has one.
fn cost_found(marks: &[Marked<'_>]) -> Option<Found>
    ensures { result ≡ option_map (unmet_cost (map mark_of marks.now))
        (find cost_test (map mark_of marks.now)) }
{
    let fault = cost_fault(marks);
    for mark in marks {
        if is_cost(mark) {
            return Some(found_at(mark, fault));
        }
    }
    None
}

/// The first stay that cannot be met, else the cost.
pub(crate) fn unmet_found(marks: &[Marked<'_>]) -> Option<Found>
    ensures { result ≡ unmet_in (map mark_of marks.now) }
{
    match first_unmet_stay(marks) {
        Some(found) => Some(found),
        None => cost_found(marks),
    }
}
