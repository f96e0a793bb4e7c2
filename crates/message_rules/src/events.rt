//! Events, each of which one process is to use.

ghost use Rattle.std.specs.Prelude.{◌≡◌, suc, List, ◌∷◌, if◌then◌else◌};
ghost use Rattle.syntax_tree.specs.Placed.{Decl as SpecDecl, placed, placed_activation, placed_decl};
ghost use Rattle.syntax_tree.specs.declared.place.Place.{Place as SpecPlace};
ghost use Rattle.syntax_tree.specs.Parts.{processes, events};
ghost use Rattle.static_names.specs.Occurrences.{names, declared_at};
ghost use Rattle.static_numbers.specs.Processes.{is_activated_by, users};
ghost use Rattle.message_rules.specs.Findings.{event_findings};
ghost use Rattle.message_rules.specs.Seen.{LookedAt, left};

use crate::fault::{Fault, note};
use static_declarations::Declarations;
use static_numbers::misused;
use static_rule::{Violation, rule};
use syntax_tree::{Declaration, Place, Trigger};

/// Whether the event whose name stands at the place starts the process.
fn is_started_by(declarations: &Declarations<'_>, event: Place, activation: &Trigger) -> bool
    ensures { result ≡ is_activated_by (declared_at (names (placed declarations.now))) event
        (placed_activation activation.now) }
{
    match activation {
        Trigger::Periodic { .. } => false,
        Trigger::AtEvent { event_place, .. } => {
            declarations.declared(*event_place) == Some(event)
        }
    }
}

/// Whether the declaration is a process that the event starts.
fn is_user(declarations: &Declarations<'_>, event: Place, decl: &Declaration) -> bool
    ensures { let declared = declared_at (names (placed declarations.now)) in
        (rest : List (SpecDecl SpecPlace)) →
        users declared event (processes (placed_decl decl.now ∷ rest)) ≡
        (if result then suc (users declared event (processes rest)) else users declared event
        (processes rest)) }
{
    match decl {
        Declaration::Process(process) => { is_started_by(declarations, event, &process.activation) }
        _ => false,
    }
}

/// How many processes the event starts.
fn count_users(declarations: &Declarations<'_>, event: Place) -> usize
    ensures { let g = placed declarations.now in result ≡
        users (declared_at (names g)) event (processes g.decls) }
{
    let mut count = 0;
    for one in declarations.program().decls.as_slice() {
        if is_user(declarations, event, one) {
            count += 1;
        }
    }
    count
}

/// Looks through the findings of the event whose name stands at the place.
#[tactic(auto, unfolding(crate::specs::Seen::left))]
fn event_at(
    known: &mut Option<Fault>,
    declarations: &Declarations<'_>,
    broken: Violation,
    event: Place,
)
    ensures { LookedAt (event_findings (placed declarations.now)) broken known.old
        (λ more. event ∷ more) known.new }
{
    let processes = count_users(declarations, event);
    note(
        known,
        broken,
        rule::EVENT_USE,
        misused(processes, event),
        Fault::EventUse { event, processes },
    );
}

/// The processes are counted only where the event is the one that is asked for.
fn decl(
    known: &mut Option<Fault>,
    declarations: &Declarations<'_>,
    broken: Violation,
    decl: &Declaration,
)
    ensures { let of = event_findings (placed declarations.now) in
        (rest : List (SpecDecl SpecPlace)) → left of broken known.new (events rest) ≡
        left of broken known.old (events (placed_decl decl.now ∷ rest)) }
{
    if let Declaration::Event { place, .. } = decl {
        if *place == broken.place {
            event_at(known, declarations, broken, *place);
        }
    }
}

/// Looks through the findings of all events.
pub(crate) fn look(known: &mut Option<Fault>, declarations: &Declarations<'_>, broken: Violation)
    ensures { let g = placed declarations.now in known.new ≡
        left (event_findings g) broken known.old (events g.decls) }
{
    for one in declarations.program().decls.as_slice() {
        decl(known, declarations, broken, one);
    }
}
