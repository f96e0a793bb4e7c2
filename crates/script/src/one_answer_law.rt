//! Law: a text is a script for some names, or it has one fault, and never both.
//!
//! `specs/OneAnswer.antt` states it over the scripts and the faults of `script`, which speak of
//! the lines of the text. That there is one of both is what `read_script` promises.
//!
//! Promised: no script has a fault, and two faults of a text are one.

ghost use Rattle.script.specs.OneAnswer.{NoScriptIsFaulty, FaultsAreOne};

/// A text that is a script for some names has no fault, and two faults of a text are one.
pub fn one_answer()
    ensures script { NoScriptIsFaulty }
    ensures fault { FaultsAreOne }
{
    crate::one_script();
}
