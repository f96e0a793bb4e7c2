//! The levels of a program.

ghost use Rattle.std.specs.Prelude.{◌≡◌, ◌<◌, [], length, slice_index, slice_index_or, IfOk};
ghost use Rattle.syntax_tree.specs.Placed.{placed};
ghost use Rattle.static_semantics.specs.Static.{IsChecked};
ghost use Rattle.compile.specs.Steps.{IsRanked};
ghost use Rattle.analysis_command.specs.Analysed.{AreLevels, IsAnalysed, IsLevel};

use crate::{CallGraph, blocker, call_graph};
use built_image_law::generated_within_limits::generated_code_is_code;
use built_image_law::premises_of_laws::checked_programs_are_ready;
use built_tasks_law::ranks_and_ceilings::ranks_are_of_the_meaning;
use built_tasks_law::tasks_of_text::tasks_are_of_the_text;
use code_names::Numbering;
use image::RawImage;
use loader::{task_at, task_set};
use out_of_memory::OutOfMemory;
use sched_response::{TaskSet, bound_of};
use sched_sections::Level;
use std::alloc::Global;
use syntax_tree::{List, Name, Program};

/// The number of the process of a level, of those in the order of ranks; 0 past their end.
fn process_of(ranked: &[usize], level: usize) -> usize
    ensures { result ≡ slice_index ranked.now level }
{
    if level < ranked.len() {
        ranked[level]
    } else {
        0
    }
}

/// The name of the number; none past the end.
fn name_of(names: &[Name], number: usize) -> &[u8]
    ensures { result.now ≡ slice_index_or names.now number [] }
{
    match names.get(number) {
        Some(name) => name.as_bytes(),
        None => b"",
    }
}

/// A level: the name of its process, its task, its bound, and what makes its block.
fn level(
    alloc: Global,
    image: &RawImage,
    numbering: &Numbering<'_>,
    graph: &CallGraph,
    set: &TaskSet,
    level: usize,
) -> Result<Level, OutOfMemory>
    requires analysed { IsAnalysed (placed numbering.now) image.now graph.now set.now }
    requires there { level < length set.now }
    requires few { level < 64 }
    ensures { IfOk result (IsLevel (placed numbering.now) image.now level) }
{
    ranks_are_of_the_meaning();
    let process = process_of(graph.ranked.as_slice(), level);
    let task = task_at(image, process);
    let bound = bound_of(set, level);
    let blocker = blocker(alloc, image, numbering, graph, level as u16 + 1, task.block)?;
    let name = Name::new(alloc, name_of(image.names.processes.as_slice(), process))?;
    Ok(Level {
        name,
        task,
        bound,
        blocker,
    })
}

/// The levels in the order of ranks.
fn all_levels(
    alloc: Global,
    image: &RawImage,
    numbering: &Numbering<'_>,
    graph: &CallGraph,
    set: &TaskSet,
) -> Result<List<Level>, OutOfMemory>
    requires { IsAnalysed (placed numbering.now) image.now graph.now set.now }
    ensures { IfOk result (AreLevels (placed numbering.now) image.now) }
{
    ranks_are_of_the_meaning();
    let mut all = List::new(alloc);
    for number in 0..set.levels() {
        let one = level(alloc, image, numbering, graph, set, number)?;
        all.push(one)?;
    }
    Ok(all)
}

/// The levels of a program in the order of ranks, by its image. Only want of memory is an error.
pub fn levels(
    alloc: Global,
    program: &Program,
    image: &RawImage,
) -> Result<List<Level>, OutOfMemory>
    requires checked { IsChecked (placed program.now) }
    requires image { IsRanked (placed program.now) image.now.overhead image.now }
    ensures { IfOk result (AreLevels (placed program.now) image.now) }
{
    checked_programs_are_ready();
    generated_code_is_code();
    tasks_are_of_the_text();
    let numbering = Numbering::new(alloc, program)?;
    let graph = call_graph(alloc, image, &numbering)?;
    let set = task_set(alloc, image)?;
    let levels = all_levels(alloc, image, &numbering, &graph, &set)?;
    Ok(levels)
}
