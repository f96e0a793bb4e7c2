//! The law. The function does nothing; its contract is the law.

ghost use Rattle.printed_law.specs.Printed.{PrintedTreesAreWritten};

use crate::trees_are_checked_alike;
use built_image_law::number_limits::stacks_are_in_limits;
use syntax_printer::{reads_back, tokens_are_spelled};

/// The canonical text of a program is that of a program with the same tree, apart from places.
pub fn printed_trees_are_written()
    ensures { PrintedTreesAreWritten }
{
    tokens_are_spelled();
    reads_back();
    trees_are_checked_alike();
    stacks_are_in_limits();
}
