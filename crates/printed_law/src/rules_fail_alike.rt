//! Laws of a tree with either of two placings that are alike. These functions do nothing; their
//! contracts are the laws.

ghost use Rattle.printed_law.specs.AlikeLaws.{CallsFailAlike, LimitsFailAlike, NamesFailAlike, ProgramsStay, StatementsFailAlike};

/// A tree with other places is the same program.
pub fn programs_stay()
    ensures { ProgramsStay }
{}

/// The rules for names, E20 to E23, fail alike.
pub fn names_fail_alike()
    ensures { NamesFailAlike }
{}

/// The rules for statements fail alike: types, what may stand where, and numbers.
pub fn statements_fail_alike()
    ensures { StatementsFailAlike }
{}

/// The rules for declarations fail alike: bounds, frames, events, handlers and counts.
pub fn limits_fail_alike()
    ensures { LimitsFailAlike }
{}

/// The rules for calls fail alike: no recursion, and no wait in a handler.
pub fn calls_fail_alike()
    ensures { CallsFailAlike }
{}
