//! Events, each of which one process is to use.

ghost use Rattle.std.specs.Prelude.{◌≡◌, ◌+◌, IfOk, OnOk, List, ◌∷◌, nat_eq, if◌then◌else◌};
ghost use Rattle.syntax_tree.specs.Placed.{Decl as SpecDecl, Process as SpecProcess, Prog as SpecProg, placed, placed_process, placed_decl};
ghost use Rattle.syntax_tree.specs.declared.place.Place.{Place as SpecPlace};
ghost use Rattle.static_rule.specs.First.{IsFirstOf};
ghost use Rattle.static_rule.specs.Parts.{FailsAmong, noted};
ghost use Rattle.syntax_tree.specs.Parts.{same_place, processes, events};
ghost use Rattle.static_names.specs.Occurrences.{names, declared_at};
ghost use Rattle.static_numbers.specs.Processes.{users};
ghost use Rattle.static_numbers.specs.Rules.{event_rules};
ghost use Rattle.static_numbers.specs.Seen.{held, known_uses};

use indexmap::IndexMap;
use out_of_memory::OutOfMemory;
use static_declarations::Declarations;
use static_rule::{Violation, blame, rule};
use std::alloc::Global;
use syntax_tree::{Declaration, Place, Process, Trigger};

/// How many processes each event activates, by the line and column of its name.
type Uses = IndexMap<(u32, u32), usize>;

/// How many processes are known that the event activates.
fn uses_of(uses: &Uses, event: Place) -> usize
    ensures { result ≡ known_uses uses.now.entries event }
{
    match uses.get(&(event.line, event.col)) {
        Some(count) => *count,
        None => 0,
    }
}

/// Notes one more process that the event activates.
fn note_use(uses: &mut Uses, event: Place) -> Result<(), OutOfMemory>
    ensures { OnOk result ((e : SpecPlace) → known_uses uses.new.entries e ≡
        (if same_place event e then held (known_uses uses.old.entries e +
        1) else known_uses uses.old.entries e)) }
{
    let count = uses_of(uses, event).saturating_add(1);
    uses.insert((event.line, event.col), count)?;
    Ok(())
}

/// Notes what activates a process.
fn process(
    uses: &mut Uses,
    declarations: &Declarations<'_>,
    process: &Process,
) -> Result<(), OutOfMemory>
    ensures { let declared = declared_at (names (placed declarations.now)) in OnOk result
        ((e : SpecPlace) (rest : List (SpecProcess SpecPlace)) →
        held (known_uses uses.new.entries e + users declared e rest) ≡
        held (known_uses uses.old.entries e +
        users declared e (placed_process process.now ∷ rest))) }
{
    if let Trigger::AtEvent { event_place, .. } = &process.activation {
        if let Some(event) = declarations.declared(*event_place) {
            note_use(uses, event)?;
        }
    }
    Ok(())
}

fn decl(
    uses: &mut Uses,
    declarations: &Declarations<'_>,
    decl: &Declaration,
) -> Result<(), OutOfMemory>
    ensures { let declared = declared_at (names (placed declarations.now)) in OnOk result
        ((e : SpecPlace) (rest : List (SpecDecl SpecPlace)) →
        held (known_uses uses.new.entries e + users declared e (processes rest)) ≡
        held (known_uses uses.old.entries e +
        users declared e (processes (placed_decl decl.now ∷ rest)))) }
{
    if let Declaration::Process(one) = decl {
        process(uses, declarations, one)?;
    }
    Ok(())
}

/// Goes once through the processes.
fn uses(alloc: Global, declarations: &Declarations<'_>) -> Result<Uses, OutOfMemory>
    ensures { let g = placed declarations.now in IfOk result
        (λ uses. (e : SpecPlace) → held (known_uses uses.entries e) ≡
        held (users (declared_at (names g)) e (processes g.decls))) }
{
    let mut uses = Uses::new(alloc);
    for one in declarations.program().decls.as_slice() {
        decl(&mut uses, declarations, one)?;
    }
    Ok(uses)
}

/// The place of an event that activates so many processes, where these are not exactly one.
pub fn misused(processes: usize, event: Place) -> Option<Place>
    ensures { result ≡ (if nat_eq processes 1 then None else Some event) }
{
    if processes == 1 { None } else { Some(event) }
}

/// Tries the rule on a declaration, the uses of all events being known.
fn event(first: &mut Option<Violation>, uses: &Uses, decl: &Declaration)
    ensures { (g : SpecProg SpecPlace) → ((e : SpecPlace) → held (known_uses uses.now.entries e) ≡
        held (users (declared_at (names g)) e (processes g.decls))) →
        (rest : List (SpecDecl SpecPlace)) → noted (event_rules g) first.new (events rest) ≡
        noted (event_rules g) first.old (events (placed_decl decl.now ∷ rest)) }
{
    if let Declaration::Event { place, .. } = decl {
        blame(
            first,
            rule::EVENT_USE,
            misused(uses_of(uses, *place), *place),
        );
    }
}

/// The event that comes first of those that are not used by exactly one process.
pub(crate) fn first_broken(
    alloc: Global,
    declarations: &Declarations<'_>,
) -> Result<Option<Violation>, OutOfMemory>
    ensures { let g = placed declarations.now in IfOk result
        (IsFirstOf (FailsAmong (event_rules g) (events g.decls))) }
{
    let uses = uses(alloc, declarations)?;
    let mut first = None;
    for one in declarations.program().decls.as_slice() {
        event(&mut first, &uses, one);
    }
    Ok(first)
}
