//! Laws: the program of the load keeps to the rules for declarations (bounds, frames, deadlines,
//! events, the numbers of handlers, and counts), and to those for what is reached by calls (no
//! routine reaches itself, and no handler reaches a wait); and the numbers in its statements are
//! within their limits.
//!
//! `specs/` says so of every tree that is the load's apart from places. Nothing is to run.
//!
//! The laws.

ghost use Rattle.load_text_law.specs.Limits.{KeepsLimits};
ghost use Rattle.load_text_law.specs.Numbers.{KeepsNumbers};
ghost use Rattle.load_text_law.specs.Reach.{KeepsReach};

/// No rule for declarations fails of a tree that is that of the load with 1 to 64 processes, apart
/// from places.
pub fn load_limits()
    ensures { KeepsLimits }
{}

/// No rule for what is reached by calls fails of a tree that is that of the load, apart from
/// places.
pub fn load_reach()
    ensures { KeepsReach }
{}

/// Of the rules for statements none but those for types (30), for what may stand where (34) and for
/// the direction of devices (38) may fail of a tree that is that of the load, apart from places:
/// turns, numbers and limits are within theirs.
pub fn load_numbers()
    ensures { KeepsNumbers }
{}
