//! What is wrong with a line of a text that is no task table, and where.

use crate::part::Part;

/// Why a word in the place of ticks is no numeral.
#[derive(Clone, Copy)]
pub(crate) enum NumeralFault {
    /// It begins with `+`.
    Plus,
    /// It is not one digit or more, with or without `-` before them.
    NoNumber,
    /// It begins with `-`.
    Minus,
    /// It has a zero before other digits.
    LeadingZero,
}

/// Why a line has no form that may stand there.
#[derive(Clone, Copy)]
pub(crate) enum FormFault {
    /// It stands behind the last line.
    BehindEnd,
    /// There is no last line.
    EndMissing,
    /// No LF ends it.
    NoLineFeed,
    CarriageReturn,
    Empty,
    BlankFirst,
    TwoBlanks,
    BlankLast,
    /// A word is no key of a part that may stand behind this one.
    NoKey { behind: Part },
    /// A word in the place of ticks is no numeral.
    NoTicks { fault: NumeralFault },
    /// It ends before its form does.
    WordMissing,
    /// Nothing of this is wrong with it.
    NoForm,
}

/// What is wrong with a name.
#[derive(Clone, Copy)]
pub(crate) enum NameFault {
    Keyword,
    TooLong,
    NoName,
    /// A part of a line has the name already.
    Taken { by: Part, line: usize },
}

/// What is wrong with ticks.
#[derive(Clone, Copy)]
pub(crate) enum TicksFault {
    /// They are outside the range of their part, in a line with this frame.
    OutOfRange { of: Part, frame: u64 },
    /// No stay has so many.
    Stay,
    /// No cost without stays is so many.
    Cost,
    /// No cost is so many with these stays: this is the least, and the next are so many or more.
    CostWithStays { least: u128, more: u128 },
}

/// What there is not, or is too much of.
#[derive(Clone, Copy)]
pub(crate) enum CountFault {
    NoProcess,
    Process,
    Monitor,
    Stay,
}

/// What is wrong with a line.
#[derive(Clone, Copy)]
pub(crate) enum Fault {
    Form { fault: FormFault },
    Name { fault: NameFault },
    Ticks { fault: TicksFault },
    Count { fault: CountFault },
    /// Nothing that is known.
    Unknown,
}

/// What is wrong with a line, and where: the column from 1, and for how many bytes.
#[derive(Clone, Copy)]
pub(crate) struct Found {
    pub column: usize,
    pub width: usize,
    pub fault: Fault,
}
