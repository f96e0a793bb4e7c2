//! The numbers of handlers.

ghost use Rattle.std.specs.Prelude.{◌≡◌, ◌||◌, IfOk, OnOk, List, [], ◌∷◌, ◌++◌, map};
ghost use Rattle.syntax_tree.specs.Placed.{Constant as SpecConstant, Decl as SpecDecl, placed, placed_constant, placed_handler, placed_decl, optional};
ghost use Rattle.syntax_tree.specs.declared.place.Place.{Place as SpecPlace};
ghost use Rattle.static_rule.specs.First.{IsFirstOf};
ghost use Rattle.static_rule.specs.Parts.{FailsAmong, note, noted};
ghost use Rattle.static_declarations.specs.Values.{value, is_within};
ghost use Rattle.syntax_tree.specs.Parts.{processes};
ghost use Rattle.static_numbers.specs.Processes.{handled, handler_numbers, all_handled, bad_handled as bad_handled_of, repeated as repeated_of};
ghost use Rattle.static_numbers.specs.Rules.{handler_rules};
ghost use Rattle.static_numbers.specs.Seen.{Tries, HasValues};

use indexmap::IndexSet;
use out_of_memory::OutOfMemory;
use static_declarations::Declarations;
use static_rule::{Violation, blame, rule};
use std::alloc::Global;
use syntax_tree::{Constant, Declaration, Handler, Place};

/// The values of numbers.
type Values = IndexSet<i64>;

/// Whether a handler may have the number: those of the machine, and those of `except` and `wait`.
fn is_allowed(number: i64) -> bool
    ensures { result ≡ (is_within 1 4 number || is_within 10 999 number) }
{
    matches!(number, 1..=4 | 10..=999)
}

/// The place of a number that no handler may have.
pub fn bad_handled(declarations: &Declarations<'_>, number: &Constant) -> Option<Place>
    ensures { (before : List (SpecConstant SpecPlace)) → result ≡
        bad_handled_of (value (placed declarations.now))
        (record { before = before; number = placed_constant number.now }) }
{
    if is_allowed(declarations.value(number)) {
        None
    } else {
        Some(number.place)
    }
}

/// The place of a number whose value is known already. Its value is known from then on.
fn repeated(
    declarations: &Declarations<'_>,
    values: &mut Values,
    number: &Constant,
) -> Result<Option<Place>, OutOfMemory>
    ensures place { let worth = value (placed declarations.now) in IfOk result
        (λ place. (before : List (SpecConstant SpecPlace)) →
        HasValues worth values.old.keys before → place ≡
        repeated_of worth (record { before = before; number = placed_constant number.now })) }
    ensures known { let worth = value (placed declarations.now) in OnOk result
        ((before : List (SpecConstant SpecPlace)) → HasValues worth values.old.keys before →
        HasValues worth values.new.keys (before ++ placed_constant number.now ∷ [])) }
{
    if values.insert(declarations.value(number))? {
        Ok(None)
    } else {
        Ok(Some(number.place))
    }
}

/// Tries the rules on a number, the values of those before it being known.
fn number(
    first: &mut Option<Violation>,
    declarations: &Declarations<'_>,
    values: &mut Values,
    number: &Constant,
) -> Result<(), OutOfMemory>
    ensures tried { let g = placed declarations.now in OnOk result
        ((before : List (SpecConstant SpecPlace)) → HasValues (value g) values.old.keys before →
        first.new ≡ note (handler_rules g) first.old
        (record { before = before; number = placed_constant number.now })) }
    ensures known { let worth = value (placed declarations.now) in OnOk result
        ((before : List (SpecConstant SpecPlace)) → HasValues worth values.old.keys before →
        HasValues worth values.new.keys (before ++ placed_constant number.now ∷ [])) }
{
    blame(
        first,
        rule::WRONG_HANDLER,
        repeated(declarations, values, number)?,
    );
    blame(first, rule::WRONG_NUMBER, bad_handled(declarations, number));
    Ok(())
}

fn numbers(
    alloc: Global,
    first: &mut Option<Violation>,
    declarations: &Declarations<'_>,
    list: &[Constant],
) -> Result<(), OutOfMemory>
    ensures { OnOk result (Tries (handler_rules (placed declarations.now)) first.old
        (handled [] (map placed_constant list.now)) first.new) }
{
    let mut values = Values::new(alloc);
    for one in list {
        number(first, declarations, &mut values, one)?;
    }
    Ok(())
}

fn handler(
    alloc: Global,
    first: &mut Option<Violation>,
    declarations: &Declarations<'_>,
    handler: &Option<Handler>,
) -> Result<(), OutOfMemory>
    ensures { OnOk result (Tries (handler_rules (placed declarations.now)) first.old
        (handler_numbers (optional placed_handler handler.now)) first.new) }
{
    if let Some(handler) = handler {
        numbers(alloc, first, declarations, handler.numbers.as_slice())?;
    }
    Ok(())
}

fn decl(
    alloc: Global,
    first: &mut Option<Violation>,
    declarations: &Declarations<'_>,
    decl: &Declaration,
) -> Result<(), OutOfMemory>
    ensures { let rules = handler_rules (placed declarations.now) in OnOk result
        ((rest : List (SpecDecl SpecPlace)) → noted rules first.new (all_handled (processes rest)) ≡
        noted rules first.old (all_handled (processes (placed_decl decl.now ∷ rest)))) }
{
    if let Declaration::Process(process) = decl {
        handler(alloc, first, declarations, &process.handler)?;
    }
    Ok(())
}

/// The rule for numbers of handlers that fails first, if any does.
pub(crate) fn first_broken(
    alloc: Global,
    declarations: &Declarations<'_>,
) -> Result<Option<Violation>, OutOfMemory>
    ensures { let g = placed declarations.now in IfOk result
        (IsFirstOf (FailsAmong (handler_rules g) (all_handled (processes g.decls)))) }
{
    let mut first = None;
    for one in declarations.program().decls.as_slice() {
        decl(alloc, &mut first, declarations, one)?;
    }
    Ok(first)
}
