//! The ranks of the processes of a program and the ceilings of its monitors, by number.
//!
//! Ranks are by deadlines (Leung and Whitehead), a ceiling is the least rank of the processes that
//! reach an entry of the monitor. `ranks_of` promises those of the source meaning
//! (`AreRanksOf` of `replay_state::ranks`). They are read off the image of the program before its bounds,
//! whose ranks and ceilings are those of the meaning (`built_tasks_law::ranks_and_ceilings`).
//!
//! Ranks and ceilings.

ghost use Rattle.std.specs.Prelude.{◌≡◌, ℕ, List, IfOk, map};
ghost use Rattle.replay_state.specs.Tables.{AreRanksOf};
ghost use Rattle.command_due.specs.Source.{IsWritten};
ghost use Rattle.replay.specs.Told.{ceiling_told};
ghost use Rattle.syntax_tree.specs.Placed.{placed, plain};

use built_image_law::generated_within_limits::generated_code_is_code;
use built_image_law::premises_of_laws::checked_programs_are_ready;
use built_tasks_law::ranks_and_ceilings::{ceilings_are_of_the_meaning, ranks_are_of_the_meaning};
use compile::{BuildFault, ranked};
use image::{RawMonitor, RawProcess};
use out_of_memory::OutOfMemory;
use replay_state::Ranks;
use static_semantics::Checked;
use std::alloc::Global;

/// The ranks of the processes of an image.
fn rank_numbers(alloc: Global, processes: &[RawProcess]) -> Result<Vec<u64>, OutOfMemory>
    ensures { IfOk result (λ ranks. ranks.items ≡ map (λ p. p.rank) processes.now) }
{
    let mut ranks = Vec::new(alloc);
    for process in processes {
        ranks.push(u64::from(process.rank))?;
    }
    Ok(ranks)
}

/// A ceiling as it stands in an image; `None` for that of a monitor that nobody reaches.
fn ceiling(number: u16) -> Option<u64>
    ensures { result ≡ ceiling_told number }
{
    if number == 65_535 {
        None
    } else {
        Some(u64::from(number))
    }
}

/// The ceilings of the monitors of an image.
fn ceiling_numbers(alloc: Global, monitors: &[RawMonitor]) -> Result<Vec<Option<u64>>, OutOfMemory>
    ensures { IfOk result (λ ceilings. ceilings.items ≡
        map (λ m. ceiling_told m.ceiling) monitors.now) }
{
    let mut ceilings = Vec::new(alloc);
    for monitor in monitors {
        ceilings.push(ceiling(monitor.ceiling))?;
    }
    Ok(ceilings)
}

/// The ranks and ceilings of the program of a text, which keeps to all rules and is not too large.
/// It takes the time of generating its code. Want of memory is the only error.
pub fn ranks_of(alloc: Global, program: &Checked) -> Result<Ranks, OutOfMemory>
    ghost text: { List ℕ }
    requires written { IsWritten text (placed program.now) }
    ensures { IfOk result (AreRanksOf (plain (placed program.now))) }
{
    checked_programs_are_ready();
    generated_code_is_code();
    ranks_are_of_the_meaning();
    ceilings_are_of_the_meaning();
    match ranked(alloc, program.prog(), 0) {
        Ok(image) => {
            let ranks = rank_numbers(alloc, image.processes.as_slice())?;
            let ceilings = ceiling_numbers(alloc, image.monitors.as_slice())?;
            Ok(Ranks { ranks, ceilings })
        }
        Err(BuildFault::Memory(error)) => Err(error),
        Err(BuildFault::TooLarge { .. }) => unreachable!(),
        Err(BuildFault::Untimely(_)) => unreachable!(),
    }
}
