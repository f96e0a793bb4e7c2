//! The numbers in statements: bounds and turns of loops, exceptions, and limits of waits.

ghost use Rattle.std.specs.Prelude.{◌≡◌, Some, None, pos, ◌+ℤ◌, int_le, int_lt, if◌then◌else◌};
ghost use Rattle.base.specs.Words.{same};
ghost use Rattle.syntax_tree.specs.Placed.{placed, placed_constant, placed_stmt};
ghost use Rattle.static_declarations.specs.Values.{value, constant_place};
ghost use Rattle.static_declarations.specs.Parts.{parts};
ghost use Rattle.message_rules.specs.Findings.{loop_findings, part_findings, raised_findings, stmt_findings, wait_findings};
ghost use Rattle.message_rules.specs.Seen.{Looked, left};

use crate::fault::{Fault, Quantity, note};
use static_declarations::Declarations;
use static_parts::{PartVisitor, ProgramPart, visit_parts};
use static_rule::{Violation, rule};
use syntax_tree::{Constant, Place, Stmt};

/// The most turns that a loop may have.
const MOST_TURNS: i64 = 1_000_000;

/// The greatest word.
const GREATEST_WORD: i64 = 2_147_483_647;

/// The least and the greatest number of an exception that a statement raises.
const NUMBERS: (u32, u32) = (10, 999);

/// The least and the greatest limit of a wait.
const LIMITS: (u32, u32) = (1, 1_000_000_000);

/// The lower bound of a loop that is above the upper bound.
fn crossed(declarations: &Declarations<'_>, low: &Constant, high: &Constant) -> Option<Place>
    ensures { let worth = value (placed declarations.now) in let lower = placed_constant low.now in
        result ≡ (if int_lt (worth (placed_constant high.now)) (worth lower) then Some
        (constant_place lower) else None) }
{
    if declarations.value(high) < declarations.value(low) {
        Some(low.place)
    } else {
        None
    }
}

/// The upper bound of a loop that is the greatest word.
fn endless(declarations: &Declarations<'_>, high: &Constant) -> Option<Place>
    ensures { let upper = placed_constant high.now in result ≡
        (if same (value (placed declarations.now) upper) (pos 2147483647) then Some
        (constant_place upper) else None) }
{
    if declarations.value(high) == GREATEST_WORD {
        Some(high.place)
    } else {
        None
    }
}

/// The place of a loop of more turns than it may have.
fn long(
    declarations: &Declarations<'_>,
    place: Place,
    low: &Constant,
    high: &Constant,
) -> Option<Place>
    ensures { let worth = value (placed declarations.now) in result ≡
        (if int_le (worth (placed_constant low.now) +ℤ pos 1000000)
        (worth (placed_constant high.now)) then Some place else None) }
{
    if declarations.value(low) + MOST_TURNS <= declarations.value(high) {
        Some(place)
    } else {
        None
    }
}

/// Looks through the findings of a loop.
fn look_at_loop(
    known: &mut Option<Fault>,
    declarations: &Declarations<'_>,
    broken: Violation,
    place: Place,
    low: &Constant,
    high: &Constant,
)
    ensures { Looked broken known.old (loop_findings (value (placed declarations.now)) place
        (placed_constant low.now) (placed_constant high.now)) known.new }
{
    let least = declarations.value(low);
    let most = declarations.value(high);
    note(
        known,
        broken,
        rule::CROSSED_BOUNDS,
        crossed(declarations, low, high),
        Fault::CrossedBounds {
            low: least,
            high: most,
        },
    );
    note(
        known,
        broken,
        rule::CROSSED_BOUNDS,
        endless(declarations, high),
        Fault::EndlessLoop,
    );
    note(
        known,
        broken,
        rule::LONG_LOOP,
        long(declarations, place, low, high),
        Fault::Number {
            of: Quantity::Turns,
            value: most - least + 1,
        },
    );
}

/// Looks through the finding of the number of an exception that a statement raises.
fn look_at_number(
    known: &mut Option<Fault>,
    declarations: &Declarations<'_>,
    broken: Violation,
    number: &Constant,
)
    ensures { Looked broken known.old
        (raised_findings (value (placed declarations.now)) (placed_constant number.now)) known.new }
{
    let value = declarations.value(number);
    note(
        known,
        broken,
        rule::WRONG_NUMBER,
        declarations.out_of(NUMBERS.0, NUMBERS.1, number),
        Fault::Number {
            of: Quantity::RaisedNumber,
            value,
        },
    );
}

/// Looks through the findings of a wait.
fn look_at_wait(
    known: &mut Option<Fault>,
    declarations: &Declarations<'_>,
    broken: Violation,
    limit: &Constant,
    number: &Constant,
)
    ensures { Looked broken known.old (wait_findings (value (placed declarations.now))
        (placed_constant limit.now) (placed_constant number.now)) known.new }
{
    look_at_number(known, declarations, broken, number);
    let value = declarations.value(limit);
    note(
        known,
        broken,
        rule::WAIT_LIMIT,
        declarations.out_of(LIMITS.0, LIMITS.1, limit),
        Fault::Number {
            of: Quantity::WaitLimit,
            value,
        },
    );
}

/// Looks through the findings of a statement, the statements in it aside.
fn look_at(known: &mut Option<Fault>, declarations: &Declarations<'_>, broken: Violation, s: &Stmt)
    ensures { Looked broken known.old
        (stmt_findings (value (placed declarations.now)) (placed_stmt s.now)) known.new }
{
    match s {
        Stmt::For {
            place,
            low,
            high,
            ..
        } => look_at_loop(known, declarations, broken, *place, low, high),
        Stmt::Wait { limit, number, .. } => {
            look_at_wait(known, declarations, broken, limit, number);
        }
        Stmt::Except { number, .. } => look_at_number(known, declarations, broken, number),
        _ => {}
    }
}

/// Looks through the findings of each part of a program. The result of a function has none.
#[derive(Drop)]
struct PartSearch<'d, 'p> {
    known: Option<Fault>,
    declarations: &'d Declarations<'p>,
    broken: Violation,
}

impl<'d, 'p> PartVisitor for PartSearch<'d, 'p> {
    ghost use Rattle.std.specs.Prelude.{Option};
    ghost use Rattle.message_rules.specs.declared.fault.Fault.{Fault};

    ghost Found = { Option Fault };

    ghost found = { λ search parts. left (part_findings (value (placed search.declarations.now))) search.broken search.known parts };

    ghost ended = { λ search part. search.known };

    #[tactic(auto, unfolding(crate::specs::Seen::left))]
    fn visit(&mut self, part: ProgramPart<'_>) -> bool {
        if let ProgramPart::Statement { s, .. } = part {
            look_at(&mut self.known, self.declarations, self.broken, s);
        }
        false
    }
}

/// Looks through the findings of all parts of a program.
pub(crate) fn look(known: &mut Option<Fault>, declarations: &Declarations<'_>, broken: Violation)
    ensures { let g = placed declarations.now in known.new ≡
        left (part_findings (value g)) broken known.old (parts g) }
{
    let mut search = PartSearch {
        known: *known,
        declarations,
        broken,
    };
    visit_parts(&mut search, declarations.program());
    *known = search.known;
}
