//! Law: where the computation of `valid_image` over a tree and its code answers, the code is of that
//! tree, as the law of safety asks.
//!
//! `specs/Rules.antt` has the premise, what each instruction of a part keeps to and what the rows
//! tell of the routines, and the law, that the part then walks through its code with the height and
//! the cost that were computed. Nothing here can run.
//!
//! The law.

ghost use Rattle.valid_image_law.specs.Rules.{FoundWalks};

/// Where the computation over a tree answers, the code is of the tree, with that height and that
/// cost.
pub fn found_walks()
    ensures { FoundWalks }
{}
