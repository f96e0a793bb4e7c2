//! Code of a part against its tree.

use image_format::{DEEPEST, Limits, SegBytes, tree_at};
use loader_code::{depth_bytes, fits_bytes, worst_bytes};
use machine_isa::Instr;
use std::test::Fail;

/// Three puts in a loop.
const CODE: &[Instr] = &[
    Instr::Repeats { turns: 3 },
    Instr::Push { value: 7 },
    Instr::Out { device: 0 },
    Instr::Repeat { to: 1 },
    Instr::End,
];

/// Their tree.
const TREE: &[u8] = &[0, 0, 0, 1, 3, 0, 0, 0, 3, 0, 0, 0, 1, 1, 0, 0, 0, 2];

/// The code is of the tree from its first instruction on, and gives nothing back.
fn fits_so_alone(code: &[Instr], tree: SegBytes<'_>) -> bool {
    !code.is_empty()
        && !fits_bytes(code, 1, tree, &[], false)
        && !fits_bytes(code, 0, tree, &[], true)
}

#[tactic(auto, using(loader_code::proofs::Fitting::fitting_is_found))]
fn costs(code: &[Instr], tree: SegBytes<'_>) -> Result<(), Fail> {
    if !fits_bytes(code, 0, tree, &[], false) {
        return Err(Fail::new("the code is not of the tree"));
    }
    if worst_bytes(code, 0, tree, &[]).run != 44 || depth_bytes(code, 0, tree, &[]) != 2 {
        return Err(Fail::new("the costs are others"));
    }
    Ok(())
}

fn fits(code: &[Instr], tree: SegBytes<'_>) -> Result<(), Fail> {
    if !fits_so_alone(code, tree) {
        return Err(Fail::new("the code fits otherwise"));
    }
    costs(code, tree)
}

fn is_of_tree(code: &[Instr], bytes: &[u8]) -> Result<(), Fail> {
    let (tree, _rest) = tree_at(Limits::of_image(0), DEEPEST, bytes)?;
    fits(code, tree)
}

#[test]
fn three_puts_in_a_loop() -> Result<(), Fail> {
    is_of_tree(CODE, TREE)
}
