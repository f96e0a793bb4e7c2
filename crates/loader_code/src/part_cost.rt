//! The three questions about the code of a part.

ghost use Rattle.std.specs.Prelude.{◌≡◌, ◌≤◌, IsTrue, length, map, min};
ghost use Rattle.loader_code.specs.TreesTold.{known_of, told};
ghost use Rattle.loader_code.specs.Whole.{is_fitting, monitor_in as stays_of, whole as defined_whole};
ghost use Rattle.image_format.specs.Stands.{tree_in};
ghost use Rattle.valid_image.specs.Found.{capped};
ghost use Rattle.valid_image.specs.Shape.{is_found};
ghost use Rattle.valid_image.specs.Tables.{found_or_nothing};
ghost use Rattle.valid_image_law.specs.Held.{hold};

use crate::instructions::results;
use crate::known::{CodeCost, RoutineCost};
use crate::parts::{only_stay, part_tree_found};
use base::Cost;
use image_format::SegBytes;
use machine_isa::Instr;

/// The monitor of a tree that is one Stay.
fn monitor_in(tree: SegBytes<'_>) -> Option<u16>
    ensures { result ≡ stays_of (tree_in tree.entry) }
{
    let (monitor, _) = only_stay(tree)?;
    Some(monitor)
}

/// The code of a part: that of an entry where its tree is one Stay.
fn whole_found(
    code: &[Instr],
    known: &[RoutineCost],
    tree: SegBytes<'_>,
    base: u32,
) -> Option<CodeCost>
    requires { base ≤ length code.now }
    ensures { told result ≡ hold (defined_whole code.now (map known_of known.now)
        (tree_in tree.entry) base) }
{
    let part = part_tree_found(code, known, monitor_in(tree), tree, base as usize)?;
    Some(part.found)
}

/// Whether the code from an address on is of the tree, and no rule of heights fails. A part that
/// gives a value back ends in RETV.
pub fn fits_bytes(
    code: &[Instr],
    base: u32,
    tree: SegBytes<'_>,
    known: &[RoutineCost],
    gives: bool,
) -> bool
    requires { base ≤ length code.now }
    ensures { result ≡ is_fitting code.now (map known_of known.now) gives (tree_in tree.entry)
        base }
{
    match whole_found(code, known, tree, base) {
        Some(found) => found.height == results(gives),
        None => false,
    }
}

/// What code that fits costs at most, each number capped.
pub fn worst_bytes(code: &[Instr], base: u32, tree: SegBytes<'_>, known: &[RoutineCost]) -> Cost
    requires base { base ≤ length code.now }
    requires fits { IsTrue (is_found (defined_whole code.now (map known_of known.now)
        (tree_in tree) base)) }
    ensures { result ≡ capped (found_or_nothing
        (defined_whole code.now (map known_of known.now) (tree_in tree.entry) base)).cost }
{
    match whole_found(code, known, tree, base) {
        Some(found) => found.cost,
        None => unreachable!(),
    }
}

/// The greatest height in code that fits, with those of the routines that it calls, held at 4,097.
pub fn depth_bytes(code: &[Instr], base: u32, tree: SegBytes<'_>, known: &[RoutineCost]) -> u32
    requires base { base ≤ length code.now }
    requires fits { IsTrue (is_found (defined_whole code.now (map known_of known.now)
        (tree_in tree) base)) }
    ensures { result ≡ min (found_or_nothing (defined_whole code.now (map known_of known.now)
        (tree_in tree.entry) base)).depth 4097 }
{
    match whole_found(code, known, tree, base) {
        Some(found) => found.depth,
        None => unreachable!(),
    }
}
