//! Laws: the script of the load is a script for the names of its program, whose lines are the
//! settings that were drawn.
//!
//! `specs/Lines.antt` says which lines these are. Nothing is to run.
//!
//! The laws.

ghost use Rattle.load_text_law.specs.Lines.{HasDevice, IsScriptOfLoad};

/// For names with an in device `src`, the text of the script of 1 to 64 processes is a script with
/// the lines that were drawn, which ends at its end; the names of the program have such a device,
/// the first.
pub fn load_script()
    ensures script { IsScriptOfLoad }
    ensures device { HasDevice }
{}
