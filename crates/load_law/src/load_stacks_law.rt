//! Law: the stacks of the program of the load are small.
//!
//! `specs/Rules.antt` of `load_law` says so of every tree that is the load's apart from
//! places. Nothing is to run.
//!
//! The law.

ghost use Rattle.load_law.specs.Rules.{KeepsStacks};

use load_text_law::load_size;

/// No routine and no process of a tree that is that of the load, apart from places, takes more
/// than 4,096 words of stack.
pub fn load_stacks()
    ensures { KeepsStacks }
{
    load_size();
}
