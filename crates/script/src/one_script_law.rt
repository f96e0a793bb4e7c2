//! Laws of scripts. These functions do nothing; their contracts are the laws.

ghost use Rattle.script.specs.Script.{IsOneScript, SaysOneThing};

/// A line says one thing, and a text is one script at most.
pub fn one_script()
    ensures line { SaysOneThing }
    ensures text { IsOneScript }
{}
