//! Laws: what is measured of a whole program is what is defined of it.
//!
//! `specs/Defined.antt` has them over the table that `code_cost` makes, with a row for each routine
//! by number and a size for each process, and the definitions of `code_cost_spec`. The program's names
//! mean what they should, each routine calls those with lower numbers alone, and the bounds of its
//! loops are numbers of 32 bits.
//!
//! Promised: each number of the table is the defined one, as far as it is counted; and the lengths
//! add up to the number of instructions, where that is at most 65,535, else to more than that.
//!
//! The laws. These functions do nothing; their contracts are the laws.

ghost use Rattle.code_measures.specs.Defined.{MeasuresAreDefined, TotalIsDefined};

/// Each row of the table is its routine's cost, stay, height, words and length; each size is its
/// process's cost, stack and length.
pub fn measures_are_defined()
    ensures { MeasuresAreDefined }
{}

/// The lengths of such a table add up to the number of instructions, where these are not too many.
pub fn the_total_is_defined()
    ensures { TotalIsDefined }
{}
