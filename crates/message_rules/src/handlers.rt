//! The numbers of handlers.

ghost use Rattle.std.specs.Prelude.{◌≡◌, List, [], ◌∷◌, map};
ghost use Rattle.syntax_tree.specs.Placed.{Decl as SpecDecl, placed, placed_constant, placed_handler, placed_decl, optional};
ghost use Rattle.syntax_tree.specs.declared.place.Place.{Place as SpecPlace};
ghost use Rattle.syntax_tree.specs.Parts.{processes};
ghost use Rattle.static_declarations.specs.Values.{value};
ghost use Rattle.static_numbers.specs.Processes.{handled, handler_numbers, all_handled, has_value as has_value_of, repeated as repeated_of};
ghost use Rattle.message_rules.specs.Findings.{handled_findings};
ghost use Rattle.message_rules.specs.Seen.{LookedAt, handled_of, left};

use crate::fault::{Fault, Quantity, note};
use static_declarations::Declarations;
use static_numbers::bad_handled;
use static_rule::{Violation, rule};
use syntax_tree::{Constant, Declaration, Handler, Place};

/// Whether one of the constants has the value.
fn has_value(declarations: &Declarations<'_>, number: i64, list: &[Constant]) -> bool
    ensures { result ≡ has_value_of (value (placed declarations.now)) number
        (map placed_constant list.now) }
{
    for one in list {
        if declarations.value(one) == number {
            return true;
        }
    }
    false
}

/// The place of a number whose value is that of one before it.
fn repeated(
    declarations: &Declarations<'_>,
    before: &[Constant],
    number: &Constant,
) -> Option<Place>
    ensures { result ≡
        repeated_of (value (placed declarations.now)) (handled_of before.now number.now) }
{
    if has_value(declarations, declarations.value(number), before) {
        Some(number.place)
    } else {
        None
    }
}

/// Looks through the findings of a number, with those before it.
#[tactic(auto, unfolding(crate::specs::Seen::left))]
fn number_at(
    known: &mut Option<Fault>,
    declarations: &Declarations<'_>,
    broken: Violation,
    before: &[Constant],
    number: &Constant,
)
    ensures { LookedAt (handled_findings (value (placed declarations.now))) broken known.old
        (λ more. handled_of before.now number.now ∷ more) known.new }
{
    let value = declarations.value(number);
    note(
        known,
        broken,
        rule::WRONG_HANDLER,
        repeated(declarations, before, number),
        Fault::Number {
            of: Quantity::ListedNumber,
            value,
        },
    );
    note(
        known,
        broken,
        rule::WRONG_NUMBER,
        bad_handled(declarations, number),
        Fault::Number {
            of: Quantity::HandlerNumber,
            value,
        },
    );
}

/// The numbers before it are looked at only where the number is the one that is asked for.
fn number(
    known: &mut Option<Fault>,
    declarations: &Declarations<'_>,
    broken: Violation,
    before: &[Constant],
    number: &Constant,
)
    ensures { LookedAt (handled_findings (value (placed declarations.now))) broken known.old
        (λ more. handled_of before.now number.now ∷ more) known.new }
{
    if number.place == broken.place {
        number_at(known, declarations, broken, before, number);
    }
}

fn numbers(
    known: &mut Option<Fault>,
    declarations: &Declarations<'_>,
    broken: Violation,
    list: &[Constant],
)
    ensures { LookedAt (handled_findings (value (placed declarations.now))) broken known.old
        (handled [] (map placed_constant list.now)) known.new }
{
    for (index, one) in list.iter().enumerate() {
        number(known, declarations, broken, &list[..index], one);
    }
}

fn handler(
    known: &mut Option<Fault>,
    declarations: &Declarations<'_>,
    broken: Violation,
    handler: &Option<Handler>,
)
    ensures { LookedAt (handled_findings (value (placed declarations.now))) broken known.old
        (handler_numbers (optional placed_handler handler.now)) known.new }
{
    if let Some(handler) = handler {
        numbers(known, declarations, broken, handler.numbers.as_slice());
    }
}

fn decl(
    known: &mut Option<Fault>,
    declarations: &Declarations<'_>,
    broken: Violation,
    decl: &Declaration,
)
    ensures { let of = handled_findings (value (placed declarations.now)) in
        (rest : List (SpecDecl SpecPlace)) → left of broken known.new (all_handled (processes rest)) ≡
        left of broken known.old (all_handled (processes (placed_decl decl.now ∷ rest))) }
{
    if let Declaration::Process(process) = decl {
        handler(known, declarations, broken, &process.handler);
    }
}

/// Looks through the findings of the numbers of all handlers.
pub(crate) fn look(known: &mut Option<Fault>, declarations: &Declarations<'_>, broken: Violation)
    ensures { let g = placed declarations.now in known.new ≡
        left (handled_findings (value g)) broken known.old (all_handled (processes g.decls)) }
{
    for one in declarations.program().decls.as_slice() {
        decl(known, declarations, broken, one);
    }
}
