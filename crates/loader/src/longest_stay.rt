//! The longest declared stays in monitors.

ghost use Rattle.std.specs.Prelude.{◌≡◌, ◌<◌, ◌+◌, ℕ, None, drop, length, slice_index_or, IfOk};
ghost use Rattle.image.specs.Raw.{image_of, routine_of};
ghost use Rattle.valid_image.specs.Pieces.{piece_number};
ghost use Rattle.valid_image.specs.Tables.{longer_stay, longest_of, own_stay as defined_own_stay, reach, stays_at, stay_of_process};
ghost use Rattle.loader_code.specs.Owned.{AreCalls};
ghost use Rattle.loader.specs.Stays.{stay_in, AreFirstStays, AreStays, AreStaysOfRoutines, AreStaysOfProcesses};

use image::{RawImage, RawRoutine};
use loader_code::{addresses_by_piece, calls_by_piece, of_piece};
use out_of_memory::OutOfMemory;
use std::alloc::Global;
use std::marker::Model;
use syntax_tree::List;

/// How long each process stays in each monitor at most, by the declared stays of the entries that
/// it reaches.
#[derive(Drop)]
pub struct Stays {
    by_monitor: List<List<Option<u32>>>,
}

impl Model for Stays {
    ghost use Rattle.std.specs.Prelude.{ℕ, List, Option};

    ghost Value = { List (List (Option ℕ)) };

    ghost view = { λ s. s.by_monitor };
}

impl Stays {
    /// The longest declared stay, in the monitor, of an entry that the process reaches; None where
    /// it reaches none.
    pub fn stay(&self, process: usize, monitor: usize) -> Option<u32>
        ensures { result ≡ stay_in self.now process monitor }
    {
        stay_at(self.by_monitor.as_slice(), process, monitor)
    }
}

/// What the rows say of the process and the monitor; nothing past their ends.
#[tactic(auto, using(crate::proofs::Deadlines::stay_past))]
fn stay_at(rows: &[List<Option<u32>>], process: usize, monitor: usize) -> Option<u32>
    ensures { result ≡ stay_in rows.now process monitor }
{
    match rows.get(monitor) {
        Some(row) => row_at(row.as_slice(), process),
        None => None,
    }
}

/// What the row says of the number; nothing past its end.
fn row_at(row: &[Option<u32>], number: usize) -> Option<u32>
    ensures { result ≡ slice_index_or row.now number None }
{
    if number < row.len() {
        row[number]
    } else {
        None
    }
}

/// The longer of two stays, where there are any.
fn longer(one: Option<u32>, other: Option<u32>) -> Option<u32>
    ensures { result ≡ longer_stay one other }
{
    match (one, other) {
        (None, _) => other,
        (Some(_), None) => one,
        (Some(ticks), Some(more)) => Some(ticks.max(more)),
    }
}

/// The longer of the stay that one of the routines reaches, by their rows, and that of those after
/// it.
fn longer_with(
    row: &[Option<u32>],
    called: &[usize],
    index: usize,
    best: Option<u32>,
) -> Option<u32>
    requires index { index < length called.now }
    requires best { best ≡ longest_of (λ r. slice_index_or row.now r None)
        (drop (index + 1) called.now) }
    ensures { result ≡ longest_of (λ r. slice_index_or row.now r None) (drop index called.now) }
{
    longer(row_at(row, called[index]), best)
}

/// The longest stay that one of the routines reaches, by their rows.
fn longest(row: &[Option<u32>], called: &[usize]) -> Option<u32>
    ensures { result ≡ longest_of (λ r. slice_index_or row.now r None) called.now }
{
    let mut best = None;
    for index in (0..called.len()).rev() {
        best = longer_with(row, called, index, best);
    }
    best
}

/// The stay of an entry, in its own monitor.
fn own_stay(routine: &RawRoutine, monitor: usize) -> Option<u32>
    ensures { result ≡ defined_own_stay (routine_of routine.now) monitor }
{
    if routine.kind == 2 && routine.owner as usize == monitor {
        Some(routine.stay)
    } else {
        None
    }
}

/// The longest stay in the monitor that the next routine reaches, by the rows of those before it.
fn next_stay(
    image: &RawImage,
    row: &[Option<u32>],
    calls: &[List<usize>],
    monitor: usize,
    number: usize,
) -> Option<u32>
    requires calls { AreCalls (image_of image.now) calls.now }
    requires rows { AreFirstStays (image_of image.now) monitor number row.now }
    requires there { number < length image.now.routines }
    ensures { result ≡ stays_at (reach (image_of image.now)) monitor number }
{
    let own = own_stay(&image.routines.as_slice()[number], monitor);
    longer(own, longest(row, of_piece(calls, number)))
}

/// By routine, the longest stay in the monitor that it reaches; by what it calls, from below.
fn of_routines(
    alloc: Global,
    image: &RawImage,
    calls: &[List<usize>],
    monitor: usize,
) -> Result<Vec<Option<u32>>, OutOfMemory>
    requires { AreCalls (image_of image.now) calls.now }
    ensures { IfOk result (λ v. AreStaysOfRoutines (image_of image.now) monitor v.items) }
{
    let mut all = Vec::new(alloc);
    for number in 0..image.routines.len() {
        let stay = next_stay(image, all.as_slice(), calls, monitor, number);
        all.push(stay)?;
    }
    Ok(all)
}

/// The longest stay in the monitor that the process reaches, by the rows of the routines.
fn process_stay(
    image: &RawImage,
    row: &[Option<u32>],
    calls: &[List<usize>],
    monitor: usize,
    number: usize,
) -> Option<u32>
    requires calls { AreCalls (image_of image.now) calls.now }
    requires rows { AreStaysOfRoutines (image_of image.now) monitor row.now }
    requires there { number < length image.now.processes }
    ensures { result ≡ stay_of_process (image_of image.now) number monitor }
{
    longest(row, of_piece(calls, image.routines.len() + number))
}

/// By process, the longest stay in the monitor that it reaches.
fn of_processes(
    alloc: Global,
    image: &RawImage,
    calls: &[List<usize>],
    monitor: usize,
) -> Result<List<Option<u32>>, OutOfMemory>
    requires { AreCalls (image_of image.now) calls.now }
    ensures { IfOk result (λ v. AreStaysOfProcesses (image_of image.now) monitor v) }
{
    let rows = of_routines(alloc, image, calls, monitor)?;
    let mut all = List::new(alloc);
    for number in 0..image.processes.len() {
        let stay = process_stay(image, rows.as_slice(), calls, monitor, number);
        all.push(stay)?;
    }
    Ok(all)
}

/// The longest stay of each process in each monitor, or that memory is short.
pub fn longest_stays(alloc: Global, image: &RawImage) -> Result<Stays, OutOfMemory>
    ensures { IfOk result (λ s. AreStays (image_of image.now) s) }
{
    if image.monitors.is_empty() {
        return Ok(Stays {
            by_monitor: List::new(alloc),
        });
    }
    let addresses = addresses_by_piece(alloc, image)?;
    let calls = calls_by_piece(alloc, image, addresses.as_slice())?;
    let mut by_monitor = List::new(alloc);
    for monitor in 0..image.monitors.len() {
        by_monitor.push(of_processes(alloc, image, calls.as_slice(), monitor)?)?;
    }
    Ok(Stays { by_monitor })
}
