//! How much a program may have.

ghost use Rattle.std.specs.Prelude.{◌≡◌, IfOk, [], ◌∷◌, None};
ghost use Rattle.syntax_tree.specs.Placed.{placed};
ghost use Rattle.static_rule.specs.First.{IsFirstOf};
ghost use Rattle.static_rule.specs.Parts.{FailsAmong, note};
ghost use Rattle.static_numbers.specs.Counts.{at_none as at_none_of, one_too_many as one_too_many_of};
ghost use Rattle.static_numbers.specs.Places.{places_of};
ghost use Rattle.static_numbers.specs.Rules.{count_rules};

use crate::places::NamePlaces;
use crate::words::too_many_words;
use out_of_memory::OutOfMemory;
use static_declarations::Declarations;
use static_rule::{Violation, blame, rule};
use std::alloc::Global;
use syntax_tree::Place;

/// A program has at most so many processes, monitors, devices and events, each.
pub const MOST_OF_A_KIND: usize = 64;

/// A program has at most so many conditions.
pub const MOST_CONDITIONS: usize = 256;

/// A program has at most so many routines, entries included.
pub const MOST_ROUTINES: usize = 512;

/// The place, where there are none.
pub fn at_none(place: Place, places: &[Place]) -> Option<Place>
    ensures { result ≡ at_none_of place places.now }
{
    if places.is_empty() { Some(place) } else { None }
}

/// The place that is one too many.
pub fn one_too_many(most: usize, places: &[Place]) -> Option<Place>
    ensures { result ≡ one_too_many_of most places.now }
{
    places.get(most).copied()
}

/// Tries the rules, the places of all things being known.
fn tried(declarations: &Declarations<'_>, places: &NamePlaces) -> Option<Violation>
    ensures { let g = placed declarations.now in places.now ≡ places_of g → result ≡
        note (count_rules g) None g }
{
    let program = declarations.program();
    let processes = places.processes.as_slice();
    let mut first = None;
    blame(&mut first, rule::COUNT, at_none(program.place, processes));
    blame(
        &mut first,
        rule::COUNT,
        one_too_many(MOST_OF_A_KIND, processes),
    );
    let monitors = places.monitors.as_slice();
    blame(
        &mut first,
        rule::COUNT,
        one_too_many(MOST_OF_A_KIND, monitors),
    );
    let devices = places.devices.as_slice();
    blame(
        &mut first,
        rule::COUNT,
        one_too_many(MOST_OF_A_KIND, devices),
    );
    let events = places.events.as_slice();
    blame(
        &mut first,
        rule::COUNT,
        one_too_many(MOST_OF_A_KIND, events),
    );
    let conditions = places.conditions.as_slice();
    blame(
        &mut first,
        rule::CONDITION_COUNT,
        one_too_many(MOST_CONDITIONS, conditions),
    );
    let routines = places.routines.as_slice();
    blame(
        &mut first,
        rule::ROUTINE_COUNT,
        one_too_many(MOST_ROUTINES, routines),
    );
    blame(
        &mut first,
        rule::VARIABLE_WORDS,
        too_many_words(declarations),
    );
    first
}

/// The rule for counts that fails first, if any does.
pub(crate) fn first_broken(
    alloc: Global,
    declarations: &Declarations<'_>,
) -> Result<Option<Violation>, OutOfMemory>
    ensures { let g = placed declarations.now in IfOk result
        (IsFirstOf (FailsAmong (count_rules g) (g ∷ []))) }
{
    let places = NamePlaces::of(alloc, declarations.program())?;
    Ok(tried(declarations, &places))
}
