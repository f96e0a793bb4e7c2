//! How much a program may have.

ghost use Rattle.std.specs.Prelude.{◌≡◌, OnOk, ◌∷◌, []};
ghost use Rattle.syntax_tree.specs.Placed.{placed};
ghost use Rattle.static_numbers.specs.Counts.{one_too_many as one_too_many_of};
ghost use Rattle.static_numbers.specs.Places.{places_of};
ghost use Rattle.message_rules.specs.Findings.{count_findings};
ghost use Rattle.message_rules.specs.Seen.{Looked, after, kind_findings, other_findings};
ghost use Rattle.message_rules.specs.declared.fault.Fault.TheVariants as fault_is;

use crate::fault::{Counted, Fault, note};
use out_of_memory::OutOfMemory;
use static_declarations::Declarations;
use static_numbers::{
    MOST_CONDITIONS, MOST_OF_A_KIND, MOST_ROUTINES, NamePlaces, at_none, one_too_many,
    too_many_words, variable_words,
};
use static_rule::{Violation, rule};
use std::alloc::Global;
use syntax_tree::Place;

/// Looks through the finding that one of these is too many.
fn count(
    known: &mut Option<Fault>,
    broken: Violation,
    number: u8,
    most: usize,
    places: &[Place],
    counted: Counted,
)
    ensures { Looked broken known.old (record {
      number = number;
      fails = one_too_many_of most places.now;
      wrong = fault_is.OneTooMany counted;
    } ∷ []) known.new }
{
    note(
        known,
        broken,
        number,
        one_too_many(most, places),
        Fault::OneTooMany(counted),
    );
}

/// Looks through the findings of processes, monitors, devices and events.
fn look_at_kinds(known: &mut Option<Fault>, broken: Violation, place: Place, places: &NamePlaces)
    ensures { Looked broken known.old (kind_findings place places.now) known.new }
{
    let processes = places.processes.as_slice();
    note(
        known,
        broken,
        rule::COUNT,
        at_none(place, processes),
        Fault::NoProcess,
    );
    let most = MOST_OF_A_KIND;
    count(
        known,
        broken,
        rule::COUNT,
        most,
        processes,
        Counted::Process,
    );
    let monitors = places.monitors.as_slice();
    count(known, broken, rule::COUNT, most, monitors, Counted::Monitor);
    let devices = places.devices.as_slice();
    count(known, broken, rule::COUNT, most, devices, Counted::Device);
    let events = places.events.as_slice();
    count(known, broken, rule::COUNT, most, events, Counted::Event);
}

/// Looks through the findings of conditions, of routines and of the words of variables.
fn look_at_others(
    known: &mut Option<Fault>,
    declarations: &Declarations<'_>,
    broken: Violation,
    places: &NamePlaces,
)
    ensures { Looked broken known.old
        (other_findings (placed declarations.now) places.now) known.new }
{
    count(
        known,
        broken,
        rule::CONDITION_COUNT,
        MOST_CONDITIONS,
        places.conditions.as_slice(),
        Counted::Condition,
    );
    count(
        known,
        broken,
        rule::ROUTINE_COUNT,
        MOST_ROUTINES,
        places.routines.as_slice(),
        Counted::Routine,
    );
    note(
        known,
        broken,
        rule::VARIABLE_WORDS,
        too_many_words(declarations),
        Fault::VariableWords {
            words: variable_words(declarations),
        },
    );
}

/// Looks through the findings of how much there is.
pub(crate) fn look(
    alloc: Global,
    known: &mut Option<Fault>,
    declarations: &Declarations<'_>,
    broken: Violation,
) -> Result<(), OutOfMemory>
    ensures { OnOk result
        (known.new ≡ after broken known.old (count_findings (placed declarations.now))) }
{
    let program = declarations.program();
    let places = NamePlaces::of(alloc, program)?;
    look_at_kinds(known, broken, program.place, &places);
    look_at_others(known, declarations, broken, &places);
    Ok(())
}
