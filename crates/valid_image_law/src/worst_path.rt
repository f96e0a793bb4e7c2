//! Laws: the worst cost that the computation over tree and code answers is the largest over all
//! paths.
//!
//! `specs/Paths.antt` says what the paths of a tree are, each with its run, suspension and waits;
//! `specs/PathsLaws.antt` that no path costs more than what the computation answers, and that for each
//! of the three some path costs just that. A call of `paths` states it; nothing here can run.
//!
//! The law.

ghost use Rattle.valid_image_law.specs.PathsLaws.{WorstIsLargest};

/// Where the computation answers, its cost is the largest over all paths, each component by itself.
pub fn worst_is_largest()
    ensures { WorstIsLargest }
{}
