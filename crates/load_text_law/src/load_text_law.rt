//! Laws: the text of the program of the load is short enough, it has tokens, and its tree is that
//! of the load, apart from places.
//!
//! `specs/Tree.antt` says so. Nothing is to run.
//!
//! The laws.

ghost use Rattle.load_text_law.specs.Tree.{HasLoadTree, IsShortText, KeepsLoadTree};

/// The text of a program with at most 64 processes has at most 1,048,576 bytes and a tree, and its
/// tree is that of the load, apart from places.
pub fn load_text()
    ensures short { IsShortText }
    ensures tree { HasLoadTree }
    ensures only { KeepsLoadTree }
{
    front_end::one_tree();
}
