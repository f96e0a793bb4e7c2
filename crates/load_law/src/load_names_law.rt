//! Law: the program of the load keeps to the rules for names: each name that is used is declared,
//! once in its reach and of the kind that is wanted, and each closing name is the opening one.
//!
//! `load_law` says so of every tree that is the load's apart from places, with up to 64
//! processes. Nothing is to run.
//!
//! The law.

ghost use Rattle.load_law.specs.Rules.{KeepsNames};

/// No rule for names (20 to 23) fails of a tree that is that of the load with up to 64 processes,
/// apart from places.
pub fn load_names()
    ensures { KeepsNames }
{}
