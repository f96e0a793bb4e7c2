//! Law: what is measured of a text is its defined cost, height and length.
//!
//! `specs/MeasuredTexts.antt` states it over the measures of `code_cost` and the definitions of
//! `code_cost_spec`, for texts whose names mean what they should, as in every checked program.
//!
//! Promised: each component is the defined one, as far as it is counted.
//!
//! The laws. These functions do nothing; their contracts are the laws.

ghost use Rattle.code_measures.specs.MeasuredTexts.{ExpressionsAreMeasured, StatementsAreMeasured};

/// The measure of an expression is its cost, its height and its length.
pub fn expressions_are_measured()
    ensures { ExpressionsAreMeasured }
{}

/// The measure of statements is their cost, their height and their length.
pub fn statements_are_measured()
    ensures { StatementsAreMeasured }
{}
