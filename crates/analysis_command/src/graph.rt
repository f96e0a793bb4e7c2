//! What the search for a blocker goes over.

ghost use Rattle.std.specs.Prelude.{◌≡◌, map, IfOk};
ghost use Rattle.syntax_tree.specs.Placed.{placed, plain};
ghost use Rattle.image.specs.Raw.{image_of};
ghost use Rattle.code_spec.specs.Numbering.{numbered, place_among};
ghost use Rattle.code_names.specs.Texts.{text_of, texts_of};
ghost use Rattle.sched_program.specs.Blockers.{place_in};
ghost use Rattle.loader_code.specs.Owned.{AreCalls};
ghost use Rattle.analysis_command.specs.Graphs.{AreRanked, IsCallGraph};

use code_names::{Body, Numbering, TextList};
use image::RawImage;
use loader::with_rank;
use loader_code::{addresses_by_piece, calls_by_piece};
use out_of_memory::OutOfMemory;
use std::alloc::Global;
use syntax_tree::List;

/// What the pieces of code of a program call, which are those of its routines and then of its
/// processes, and in which order they stand.
#[derive(Drop)]
pub struct CallGraph {
    /// By piece, the numbers of the routines that it calls.
    pub calls: Vec<List<usize>>,
    /// By routine, its place in the text.
    pub places: Vec<usize>,
    /// The numbers of the processes in the order of ranks.
    pub ranked: Vec<usize>,
}

/// The place of a routine among those of the text; their count where it is none of them.
fn place_of(texts: &TextList<'_>, text: Body<'_>) -> usize
    ensures { result ≡ place_among (text_of text.entry) (texts_of texts.now) }
{
    match texts.index(text.owner, &text.routine.name) {
        Some(place) => place,
        None => texts.as_slice().len(),
    }
}

/// The places of routines among those of the text.
fn places_among(
    alloc: Global,
    texts: &TextList<'_>,
    routines: &[Body<'_>],
) -> Result<Vec<usize>, OutOfMemory>
    ensures { IfOk result (λ v. v.items ≡
        map (λ b. place_among (text_of b) (texts_of texts.now)) routines.now) }
{
    let mut all = Vec::new(alloc);
    for routine in routines {
        let place = place_of(texts, *routine);
        all.push(place)?;
    }
    Ok(all)
}

/// The place of each routine in the text, by its number.
fn places(alloc: Global, numbering: &Numbering<'_>) -> Result<Vec<usize>, OutOfMemory>
    ensures { IfOk result (λ v. v.items ≡ map (place_in (plain (placed numbering.now)))
        (numbered (plain (placed numbering.now)))) }
{
    let texts = numbering.directory().texts();
    let places = places_among(alloc, texts, numbering.order().as_slice())?;
    Ok(places)
}

/// The numbers of the processes in the order of ranks.
fn ranked(alloc: Global, image: &RawImage) -> Result<Vec<usize>, OutOfMemory>
    ensures { IfOk result (λ v. AreRanked (image_of image.now) v.items) }
{
    let processes = image.processes.as_slice();
    let mut all = Vec::new(alloc);
    for level in 0..processes.len() {
        let process = with_rank(processes, level + 1);
        all.push(process)?;
    }
    Ok(all)
}

/// What each piece calls.
fn calls(alloc: Global, image: &RawImage) -> Result<Vec<List<usize>>, OutOfMemory>
    ensures { IfOk result (λ v. AreCalls (image_of image.now) v.items) }
{
    let addresses = addresses_by_piece(alloc, image)?;
    calls_by_piece(alloc, image, addresses.as_slice())
}

/// The graph of the calls of a program, by its image and by the numbers of its routines. Only want
/// of memory is an error.
pub fn call_graph(
    alloc: Global,
    image: &RawImage,
    numbering: &Numbering<'_>,
) -> Result<CallGraph, OutOfMemory>
    ensures { IfOk result (IsCallGraph (plain (placed numbering.now)) (image_of image.now)) }
{
    let calls = calls(alloc, image)?;
    let places = places(alloc, numbering)?;
    let ranked = ranked(alloc, image)?;
    Ok(CallGraph {
        calls,
        places,
        ranked,
    })
}
