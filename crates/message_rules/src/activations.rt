//! Frames, deadlines and first activations of processes.

ghost use Rattle.std.specs.Prelude.{◌≡◌, List, ◌∷◌};
ghost use Rattle.syntax_tree.specs.Placed.{Decl as SpecDecl, placed, placed_constant, placed_activation, placed_process, placed_decl, optional};
ghost use Rattle.syntax_tree.specs.declared.place.Place.{Place as SpecPlace};
ghost use Rattle.syntax_tree.specs.Parts.{processes};
ghost use Rattle.static_declarations.specs.Values.{value};
ghost use Rattle.message_rules.specs.Findings.{first_of, process_findings, ticks as ticks_of};
ghost use Rattle.message_rules.specs.Seen.{LookedAt, left};

use crate::fault::{Fault, Quantity, note};
use static_declarations::Declarations;
use static_numbers::{bad_deadline, bad_first, bad_frame, deadline_of, frame_of};
use static_rule::{Violation, rule};
use syntax_tree::{Constant, Declaration, Process, Trigger};

/// The ticks of a constant, 0 where there is none.
fn ticks(declarations: &Declarations<'_>, constant: &Option<Constant>) -> i64
    ensures { result ≡ ticks_of (value (placed declarations.now))
        (optional placed_constant constant.now) }
{
    match constant {
        Some(constant) => declarations.value(constant),
        None => 0,
    }
}

/// The ticks of a first activation, 0 where there is none.
fn first_ticks(declarations: &Declarations<'_>, activation: &Trigger) -> i64
    ensures { result ≡ ticks_of (value (placed declarations.now))
        (first_of (placed_activation activation.now)) }
{
    match activation {
        Trigger::Periodic { first, .. } => ticks(declarations, first),
        Trigger::AtEvent { .. } => 0,
    }
}

/// Looks through the findings of a process.
#[tactic(auto, unfolding(crate::specs::Seen::left))]
fn process(
    known: &mut Option<Fault>,
    declarations: &Declarations<'_>,
    broken: Violation,
    process: &Process,
)
    ensures { LookedAt (process_findings (value (placed declarations.now))) broken known.old
        (λ more. placed_process process.now ∷ more) known.new }
{
    let activation = &process.activation;
    let frame = declarations.value(frame_of(activation));
    note(
        known,
        broken,
        rule::WRONG_ACTIVATION,
        bad_frame(declarations, process),
        Fault::Number {
            of: Quantity::Frame,
            value: frame,
        },
    );
    note(
        known,
        broken,
        rule::WRONG_ACTIVATION,
        bad_deadline(declarations, process),
        Fault::Deadline {
            ticks: ticks(declarations, deadline_of(activation)),
            frame,
        },
    );
    note(
        known,
        broken,
        rule::WRONG_ACTIVATION,
        bad_first(declarations, process),
        Fault::Number {
            of: Quantity::FirstActivation,
            value: first_ticks(declarations, activation),
        },
    );
}

fn decl(
    known: &mut Option<Fault>,
    declarations: &Declarations<'_>,
    broken: Violation,
    decl: &Declaration,
)
    ensures { let of = process_findings (value (placed declarations.now)) in
        (rest : List (SpecDecl SpecPlace)) → left of broken known.new (processes rest) ≡
        left of broken known.old (processes (placed_decl decl.now ∷ rest)) }
{
    if let Declaration::Process(one) = decl {
        process(known, declarations, broken, one);
    }
}

/// Looks through the findings of all processes.
pub(crate) fn look(known: &mut Option<Fault>, declarations: &Declarations<'_>, broken: Violation)
    ensures { let g = placed declarations.now in known.new ≡
        left (process_findings (value g)) broken known.old (processes g.decls) }
{
    for one in declarations.program().decls.as_slice() {
        decl(known, declarations, broken, one);
    }
}
