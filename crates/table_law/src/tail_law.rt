//! Law: the tail that is chosen stands behind no made name in a name of the table.
//!
//! `specs/Tails.antt` says so. Nothing is to run.
//!
//! The law.

ghost use Rattle.table_law.specs.Tails.{HasShortNames, IsFreeTail};

/// No name of a table is a made name with the tail that is chosen, and a made name has at most 18
/// bytes with it.
pub fn tail_is_free()
    ensures free { IsFreeTail }
    ensures short { HasShortNames }
{}
