//! Tables whose reports are known, with nothing to run.

ghost use Rattle.sched_table.specs.Example.{LateIsShown, LateIsShownAsJson, MineIsShown, PutIsShown};

/// A program that puts one number, as JSON; a mine pump; and a program that is late, both ways.
pub fn known_reports()
    ensures put { PutIsShown }
    ensures mine { MineIsShown }
    ensures late { LateIsShown }
    ensures late_json { LateIsShownAsJson }
{}
