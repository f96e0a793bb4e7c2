//! Law: a list of statements that is to spend ticks takes just so many.
//!
//! `specs/Ticks.antt` says so. Nothing is to run.
//!
//! The law.

ghost use Rattle.table_law.specs.Ticks.{IsLow, IsShort, TakesTicks};

/// Where its variable is one of a frame or of a process, with one word and no range, a list that
/// spends 0 ticks, or 3 and more, takes just so many; it has at most 32 instructions, 4 words of
/// stack and 3 loops.
pub fn spend_takes()
    ensures ticks { TakesTicks }
    ensures short { IsShort }
    ensures low { IsLow }
{}
