//! Law: the program of the load keeps to the rules for types, for what may stand where, and for the
//! direction of devices.
//!
//! `load_law` says so of every tree that is read and that is the load's apart from places.
//! The proof gives each name that is used its declaration, and then goes through the statements.
//! Nothing is to run.
//!
//! The law. This function does nothing; its contract is the law.

ghost use Rattle.load_law.specs.Rules.{KeepsTypes};

use wellformed_law::{names_are_found, names_stand_apart, things_are_known};

/// Of a tree that is read and that is that of the load apart from places, types fit (30), each
/// statement may stand where it does (34), and devices are used in their direction (38).
pub fn load_types()
    ensures { KeepsTypes }
{
    names_stand_apart();
    names_are_found();
    things_are_known();
}
