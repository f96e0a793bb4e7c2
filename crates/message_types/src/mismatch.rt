//! What may not agree.

ghost use Rattle.std.specs.Prelude.{◌≡◌};
ghost use Rattle.std.specs.Option.{option_or};
ghost use Rattle.message_types.specs.Seen.{seen};

use static_declarations::Sort;
use syntax_tree::Op;

/// Where a value of a sort is wanted. Names are those of the program.
#[derive(Clone, Copy)]
pub(crate) enum Spot<'p> {
    If,
    ExitWhen,
    Assert,
    AssignedTo(&'p [u8]),
    GotInto(&'p [u8]),
    PutTo(&'p [u8]),
    /// An argument of a routine, by its number from 1.
    Argument { number: usize, routine: &'p [u8] },
    IndexOf(&'p [u8]),
    LeftOf(Op),
    RightOf(Op),
    BehindMinus,
    BehindNot,
    ResultOf(&'p [u8]),
}

/// What does not agree.
#[derive(Clone, Copy)]
pub(crate) enum Mismatch<'p> {
    /// A value of one sort stands where the other is wanted.
    SortsDiffer {
        spot: Spot<'p>,
        wanted: Sort,
        found: Sort,
    },
    /// A call has more or fewer arguments than the routine has parameters.
    CountsDiffer {
        routine: &'p [u8],
        wanted: usize,
        found: usize,
    },
    /// An array stands without an index.
    LacksIndex {
        array: &'p [u8],
    },
    /// What is no array stands with an index.
    HasIndex {
        name: &'p [u8],
    },
}

/// The first of the two, if one is there.
pub(crate) fn first<'p>(
    one: Option<Mismatch<'p>>,
    other: Option<Mismatch<'p>>,
) -> Option<Mismatch<'p>>
    ensures { seen result ≡ option_or (seen one.entry) (seen other.entry) }
{
    match one {
        Some(found) => Some(found),
        None => other,
    }
}
