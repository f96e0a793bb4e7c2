//! The search for what makes a block.

ghost use Rattle.std.specs.Prelude.{◌≡◌, ◌≤◌, IfOk, drop, length};
ghost use Rattle.syntax_tree.specs.Placed.{placed, plain};
ghost use Rattle.image.specs.Raw.{image_of};
ghost use Rattle.loader_code.specs.Owned.{AreCalls};
ghost use Rattle.sched_program.specs.Tasks.{IsBlock};
ghost use Rattle.sched_program.specs.Blockers.{IsBlockerOf};
ghost use Rattle.analysis_command.specs.Graphs.{IsCallGraph, IsImageOfText};
ghost use Rattle.analysis_command.specs.Found.{IsFoundOf};

use crate::found_law::what_is_found_is_the_blocker;
use crate::goals::goals;
use crate::graph::CallGraph;
use crate::naming::named_blocker;
use code_names::{Numbering, Reached, first_places, first_reached};
use image::RawImage;
use out_of_memory::OutOfMemory;
use sched_sections::Blocker;
use std::alloc::Global;
use syntax_tree::List;

/// The processes of lower rank, of those in the order of ranks.
fn ranked_below(ranked: &[usize], rank: u16) -> &[usize]
    requires { rank ≤ length ranked.now }
    ensures { result.now ≡ drop rank ranked.now }
{
    &ranked[rank as usize..]
}

/// What the processes call, whose pieces stand behind those of so many routines.
fn calls_of_processes(calls: &[List<usize>], routines: usize) -> &[List<usize>]
    requires { routines ≤ length calls.now }
    ensures { result.now ≡ drop routines calls.now }
{
    &calls[routines..]
}

/// Which place is reached first, and from which piece, of the processes below a rank.
fn found(
    alloc: Global,
    image: &RawImage,
    graph: &CallGraph,
    rank: u16,
    block: u64,
) -> Result<Option<Reached>, OutOfMemory>
    requires calls { AreCalls (image_of image.now) graph.now.calls.items }
    requires places { length graph.now.places.items ≡ length image.now.routines }
    requires rank { rank ≤ length graph.now.ranked.items }
    ensures { IfOk result (IsFoundOf (image_of image.now) graph.now rank block) }
{
    let goals = goals(alloc, image, graph.places.as_slice(), rank, block)?;
    let row = first_places(alloc, goals.as_slice(), graph.calls.as_slice())?;
    let of_processes = calls_of_processes(graph.calls.as_slice(), image.routines.len());
    let lower = ranked_below(graph.ranked.as_slice(), rank);
    Ok(first_reached(row.as_slice(), of_processes, lower))
}

/// What makes the block of a rank of a program, which counts from 1: the entry that stands first in
/// the text, of those in which a process of lower rank stays for as long as the block, and of the
/// processes that come to it the nearest below. None exactly where the block is 0. Only want of
/// memory is an error.
pub fn blocker(
    alloc: Global,
    image: &RawImage,
    numbering: &Numbering<'_>,
    graph: &CallGraph,
    rank: u16,
    block: u64,
) -> Result<Option<Blocker>, OutOfMemory>
    requires text { IsImageOfText (plain (placed numbering.now)) (image_of image.now) }
    requires graph { IsCallGraph (plain (placed numbering.now)) (image_of image.now) graph.now }
    requires rank { rank ≤ length graph.now.ranked.items }
    requires block { IsBlock (plain (placed numbering.now)) rank block }
    ensures { IfOk result (IsBlockerOf (plain (placed numbering.now)) rank block) }
{
    what_is_found_is_the_blocker();
    if block == 0 {
        return Ok(None);
    }
    let first = found(alloc, image, graph, rank, block)?;
    match first {
        None => Ok(None),
        Some(reached) => {
            let directory = numbering.directory();
            let blocker = named_blocker(alloc, directory, reached.place, reached.piece)?;
            Ok(Some(blocker))
        }
    }
}
