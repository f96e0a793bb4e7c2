//! The order of the processes.

ghost use Rattle.std.specs.Prelude.{◌≡◌, ◌-◌, map, IfOk};
ghost use Rattle.image.specs.Raw.{process_of};

use image::RawProcess;
use out_of_memory::OutOfMemory;
use std::alloc::Global;

/// The level of a process, which counts from 0.
fn level_of(process: &RawProcess) -> usize
    ensures { result ≡ (process_of process.now).rank - 1 }
{
    (process.rank as usize).saturating_sub(1)
}

/// The level of each process, in the order of the text.
pub fn order(alloc: Global, processes: &[RawProcess]) -> Result<Vec<usize>, OutOfMemory>
    ensures { IfOk result (λ v. v.items ≡ map (λ p. (process_of p).rank - 1) processes.now) }
{
    let mut all = Vec::new(alloc);
    for process in processes {
        let level = level_of(process);
        all.push(level)?;
    }
    Ok(all)
}
