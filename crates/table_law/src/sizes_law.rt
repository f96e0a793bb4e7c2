//! Law: a table's program has not too many instructions, and its stacks are small.
//!
//! `specs/Sizes.antt` says so. Nothing is to run.
//!
//! The law.

ghost use Rattle.table_law.specs.Sizes.{HasLowEntries, HasLowProcesses, IsShortCode};

/// A table's program has at most 20,544 instructions; a process takes at most 13 words of stack, and
/// an entry at most 8.
pub fn table_sizes()
    ensures short { IsShortCode }
    ensures processes { HasLowProcesses }
    ensures entries { HasLowEntries }
{}
