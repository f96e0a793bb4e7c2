//! Frames, deadlines and first activations of processes.

ghost use Rattle.std.specs.Prelude.{◌≡◌, List, ◌∷◌};
ghost use Rattle.syntax_tree.specs.Placed.{Decl as SpecDecl, placed, placed_constant, placed_activation, placed_process, placed_decl, optional};
ghost use Rattle.syntax_tree.specs.declared.place.Place.{Place as SpecPlace};
ghost use Rattle.static_rule.specs.First.{IsFirstOf};
ghost use Rattle.static_rule.specs.Parts.{FailsAmong, note, noted};
ghost use Rattle.static_declarations.specs.Values.{value, out_of};
ghost use Rattle.syntax_tree.specs.Parts.{processes};
ghost use Rattle.static_numbers.specs.Processes.{frame_of as frame_of_spec, deadline_of as deadline_of_spec, bad_frame as bad_frame_of, bad_deadline as bad_deadline_of, bad_first as bad_first_of};
ghost use Rattle.static_numbers.specs.Rules.{process_rules};

use static_declarations::Declarations;
use static_rule::{Violation, blame, rule};
use syntax_tree::{Constant, Declaration, Place, Process, Trigger};

/// A frame, and a deadline, has at least so many ticks.
const LEAST_TICKS: u32 = 10;

/// A frame has at most so many ticks, and a first activation is at most so many ticks late.
const MOST_TICKS: u32 = 1_000_000_000;

/// The frame of a process that is activated so.
pub fn frame_of(activation: &Trigger) -> &Constant
    ensures { placed_constant result.now ≡ frame_of_spec (placed_activation activation.now) }
{
    match activation {
        Trigger::Periodic { frame, .. } | Trigger::AtEvent { frame, .. } => frame,
    }
}

/// The deadline of a process that is activated so, if it tells one.
pub fn deadline_of(activation: &Trigger) -> &Option<Constant>
    ensures { optional placed_constant result.now ≡
        deadline_of_spec (placed_activation activation.now) }
{
    match activation {
        Trigger::Periodic { deadline, .. } | Trigger::AtEvent { deadline, .. } => deadline,
    }
}

/// The place of a frame that is below 10 or above 1,000,000,000.
pub fn bad_frame(declarations: &Declarations<'_>, process: &Process) -> Option<Place>
    ensures { result ≡ bad_frame_of (value (placed declarations.now)) (placed_process process.now) }
{
    declarations.out_of(LEAST_TICKS, MOST_TICKS, frame_of(&process.activation))
}

/// The place of a deadline that is below 10 or above the frame.
pub fn bad_deadline(declarations: &Declarations<'_>, process: &Process) -> Option<Place>
    ensures { result ≡ bad_deadline_of (value (placed declarations.now))
        (placed_process process.now) }
{
    let frame = frame_of(&process.activation);
    let deadline = deadline_of(&process.activation).as_ref()?;
    let ticks = declarations.value(deadline);
    if i64::from(LEAST_TICKS) <= ticks && ticks <= declarations.value(frame) {
        None
    } else {
        Some(deadline.place)
    }
}

/// The place of a first activation that is above 1,000,000,000 or below 0.
pub fn bad_first(declarations: &Declarations<'_>, process: &Process) -> Option<Place>
    ensures { result ≡ bad_first_of (value (placed declarations.now)) (placed_process process.now) }
{
    match &process.activation {
        Trigger::Periodic {
            first: Some(start),
            ..
        } => declarations.out_of(0, MOST_TICKS, start),
        Trigger::Periodic { first: None, .. } | Trigger::AtEvent { .. } => None,
    }
}

/// Tries the rules on a process.
fn process(first: &mut Option<Violation>, declarations: &Declarations<'_>, process: &Process)
    ensures { first.new ≡ note (process_rules (placed declarations.now)) first.old
        (placed_process process.now) }
{
    blame(
        first,
        rule::WRONG_ACTIVATION,
        bad_frame(declarations, process),
    );
    blame(
        first,
        rule::WRONG_ACTIVATION,
        bad_deadline(declarations, process),
    );
    blame(
        first,
        rule::WRONG_ACTIVATION,
        bad_first(declarations, process),
    );
}

fn decl(first: &mut Option<Violation>, declarations: &Declarations<'_>, decl: &Declaration)
    ensures { let rules = process_rules (placed declarations.now) in
        (rest : List (SpecDecl SpecPlace)) → noted rules first.new (processes rest) ≡
        noted rules first.old (processes (placed_decl decl.now ∷ rest)) }
{
    if let Declaration::Process(one) = decl {
        process(first, declarations, one);
    }
}

/// The rule for frames, deadlines and first activations that fails first, if any does.
pub(crate) fn first_broken(declarations: &Declarations<'_>) -> Option<Violation>
    ensures { let g = placed declarations.now in IsFirstOf
        (FailsAmong (process_rules g) (processes g.decls)) result }
{
    let mut first = None;
    for one in declarations.program().decls.as_slice() {
        decl(&mut first, declarations, one);
    }
    first
}
