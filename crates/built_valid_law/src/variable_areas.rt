//! Laws: the variables of a well-formed program lie in the areas that an image has for them.
//!
//! `specs/Lies.antt` says what it is for a variable to lie in an area as an instruction may name
//! it.
//! `specs/Areas.antt` has the laws: variables and parameters that stand one after the other, the
//! words of monitors, the turns of loops, and devices by number. Nothing here can run.
//!
//! The laws.

ghost use Rattle.built_valid_law.specs.Areas.{VariablesLie, ParametersLie, TurnsAreFew, MonitorsHaveWords, DevicesStand};

/// Variables one after the other lie in an area that has room for them.
pub fn variables_lie()
    ensures { VariablesLie }
{}

/// So do parameters.
pub fn parameters_lie()
    ensures { ParametersLie }
{}

/// A loop has 1 to 1,000,000 turns.
pub fn turns_are_few()
    ensures { TurnsAreFew }
{}

/// Each monitor stands at its base, with the words of its variables.
pub fn monitors_have_words()
    ensures { MonitorsHaveWords }
{}

/// A device stands under its number, with its way.
pub fn devices_stand()
    ensures { DevicesStand }
{}
