//! Laws: the text of a table's program is short enough, it has tokens, its tree is that of the
//! table's program, apart from places, and the text is canonical.
//!
//! `specs/Tree.antt` says so. Nothing is to run.
//!
//! The laws.

ghost use Rattle.table_law.specs.Tree.{HasTableTree, IsCanonicalText, IsShortText, KeepsTableTree};

/// The text of the program of each table has fewer than 210,000 bytes and a tree; its tree is that
/// of the table's program, apart from places, and has this canonical text.
pub fn table_tree()
    ensures short { IsShortText }
    ensures tree { HasTableTree }
    ensures only { KeepsTableTree }
    ensures canonical { IsCanonicalText }
{
    front_end::one_tree();
}
