//! The first place that each routine comes to.

ghost use Rattle.std.specs.Prelude.{◌≡◌, ◌<◌, ◌+◌, [], drop, length, slice_index_or, IfOk};
ghost use Rattle.code_names.specs.Goals.{calls_at, earlier as defined_earlier, earliest_of, place_at, AreFirstPlaces};

use out_of_memory::OutOfMemory;
use std::alloc::Global;
use syntax_tree::List;

/// The earlier of two places, where there are any.
fn earlier(one: Option<usize>, other: Option<usize>) -> Option<usize>
    ensures { result ≡ defined_earlier one other }
{
    match (one, other) {
        (None, _) => other,
        (Some(_), None) => one,
        (Some(place), Some(least)) => Some(place.min(least)),
    }
}

/// What a row says of the number; nothing past its end.
fn place_of(row: &[Option<usize>], number: usize) -> Option<usize>
    ensures { result ≡ place_at row.now number }
{
    if number < row.len() {
        row[number]
    } else {
        None
    }
}

/// What the piece of the number calls; nothing past the end.
pub fn calls_of(calls: &[List<usize>], piece: usize) -> &[usize]
    ensures { result.now ≡ calls_at calls.now piece }
{
    if piece < calls.len() {
        calls[piece].as_slice()
    } else {
        &[]
    }
}

/// The earlier of the place of one of the routines, by their row, and that of those after it.
fn earlier_with(
    row: &[Option<usize>],
    called: &[usize],
    index: usize,
    best: Option<usize>,
) -> Option<usize>
    requires index { index < length called.now }
    requires best { best ≡ earliest_of row.now (drop (index + 1) called.now) }
    ensures { result ≡ earliest_of row.now (drop index called.now) }
{
    earlier(place_of(row, called[index]), best)
}

/// The first place that one of the routines comes to, by their row.
pub fn earliest(row: &[Option<usize>], called: &[usize]) -> Option<usize>
    ensures { result ≡ earliest_of row.now called.now }
{
    let mut best = None;
    for index in (0..called.len()).rev() {
        best = earlier_with(row, called, index, best);
    }
    best
}

/// The first place that the next routine comes to, by the row of those before it.
fn next_place(
    goals: &[Option<usize>],
    row: &[Option<usize>],
    called: &[usize],
    number: usize,
) -> Option<usize>
    ensures { result ≡ defined_earlier (place_at goals.now number)
        (earliest_of row.now called.now) }
{
    earlier(place_of(goals, number), earliest(row, called))
}

/// The first place that each routine comes to, by its number: its own, where it is a goal, or the
/// first of those that it calls. Only want of memory is an error.
pub fn first_places(
    alloc: Global,
    goals: &[Option<usize>],
    calls: &[List<usize>],
) -> Result<Vec<Option<usize>>, OutOfMemory>
    ensures { IfOk result (λ v. AreFirstPlaces goals.now calls.now (length goals.now) v.items) }
{
    let mut all = Vec::new(alloc);
    for number in 0..goals.len() {
        let place = next_place(goals, all.as_slice(), calls_of(calls, number), number);
        all.push(place)?;
    }
    Ok(all)
}
