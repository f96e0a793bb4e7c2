//! The law of two trees that are the same apart from places. This function does nothing; its
//! contract is the law.

ghost use Rattle.printed_law.specs.AlikeLaws.{TreesAreCheckedAlike};

use syntax::tokens_in_order;
use syntax_reading::{one_list, one_tree};

/// Of two trees that are read and are the same apart from places, one keeps to the rules for names
/// and to all static rules where the other does.
pub fn trees_are_checked_alike()
    ensures { TreesAreCheckedAlike }
{
    tokens_in_order();
    one_tree();
    one_list();
}
