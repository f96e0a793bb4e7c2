//! Law: the frames and the deadlines of a table's program are those of the table.
//!
//! `specs/Frames.antt` says so. Nothing is to run.
//!
//! The law.

ghost use Rattle.table_law.specs.Frames.{HasDeadlines, HasFrames};

/// The process of a line has the line's frame and its deadline, which is the frame where the line
/// has none.
pub fn table_frames()
    ensures frames { HasFrames }
    ensures deadlines { HasDeadlines }
{}
