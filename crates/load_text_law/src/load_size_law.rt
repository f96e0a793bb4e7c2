//! Law: how many instructions the program of the load has, and that these are not too many.
//!
//! `specs/Size.antt` says so. Nothing is to run.
//!
//! The law.

ghost use Rattle.load_text_law.specs.Size.{HasLength, IsSameProgram, IsShortCode};

/// The program of the load has 11 instructions, 24 for each process, and one for each second one,
/// which are not too many; a tree that is that of the load apart from places is that program.
pub fn load_size()
    ensures length { HasLength }
    ensures same { IsSameProgram }
    ensures short { IsShortCode }
{}
