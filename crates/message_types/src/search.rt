//! The first part of a program in which something does not agree.

ghost use Rattle.std.specs.Prelude.{◌≡◌};
ghost use Rattle.syntax_tree.specs.Placed.{placed};
ghost use Rattle.static_declarations.specs.Parts.{parts};
ghost use Rattle.static_parts.specs.Visits.{part_of};
ghost use Rattle.message_types.specs.Told.{first_mismatch as mismatch_among, mismatch_at as mismatch_of_part};
ghost use Rattle.message_types.specs.Seen.{seen};

use crate::expr::unfit;
use crate::mismatch::{Mismatch, Spot};
use crate::name::routine_name;
use crate::stmt::stmt_mismatch;
use static_declarations::{Declarations, sort_of};
use static_parts::{PartVisitor, ProgramPart, stmt_place, visit_parts};
use syntax_tree::Place;

/// What does not agree in a part of a program, if it stands at the place.
fn mismatch_at<'p>(
    declarations: &Declarations<'p>,
    place: Place,
    part: ProgramPart<'p>,
) -> Option<Mismatch<'p>>
    ensures { seen result ≡ mismatch_of_part (placed declarations.now) place (part_of part.entry) }
{
    match part {
        ProgramPart::Statement { s, .. } if stmt_place(s) == place => {
            stmt_mismatch(declarations, s)
        }
        ProgramPart::Answer { name, kind, value } if name == place => {
            let function = routine_name(declarations.program(), name);
            unfit(declarations, Spot::ResultOf(function), sort_of(kind), value)
        }
        _ => None,
    }
}

/// Goes through a program up to the first part that is mistyped at the place.
#[derive(Drop)]
struct Search<'d, 'p> {
    declarations: &'d Declarations<'p>,
    place: Place,
}

impl<'d, 'p> PartVisitor for Search<'d, 'p> {
    ghost use Rattle.std.specs.Prelude.{Option};
    ghost use Rattle.message_types.specs.Mismatches.{Mismatch};

    ghost Found = { Option Mismatch };

    ghost found = { λ search parts. mismatch_among (placed search.declarations.now) search.place parts };

    ghost ended = { λ search part. mismatch_of_part (placed search.declarations.now) search.place part };

    fn visit(&mut self, part: ProgramPart<'_>) -> bool {
        mismatch_at(self.declarations, self.place, part).is_some()
    }
}

/// What does not agree in the first part of the program that is mistyped at the place.
pub(crate) fn first_mismatch<'p>(
    declarations: &Declarations<'p>,
    place: Place,
) -> Option<Mismatch<'p>>
    ensures { let g = placed declarations.now in
        seen result ≡ mismatch_among g place (parts g) }
{
    let mut search = Search {
        declarations,
        place,
    };
    let part = visit_parts(&mut search, declarations.program())?;
    mismatch_at(search.declarations, search.place, part)
}
