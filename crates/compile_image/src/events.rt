//! The frames of events.

ghost use Rattle.std.specs.Prelude.{◌≡◌, ◌++◌, ◌∷◌, IfOk, OnOk, List};
ghost use Rattle.syntax_tree.specs.Plain.{Process as SpecProcess};
ghost use Rattle.syntax_tree.specs.Placed.{placed, placed_process, plain, plain_process};
ghost use Rattle.code_names.specs.Parts.{seen_processes};
ghost use Rattle.code_names.specs.First.{index_of, names_of};
ghost use Rattle.compile_image.specs.Released.{frame_found, released_events, released_frames};

use crate::counts::count;
use crate::errors::tri;
use code_layout::ConstantValues;
use code_names::NameList;
use out_of_memory::OutOfMemory;
use std::alloc::Global;
use syntax_tree::{List, Name, Process, Trigger};

/// The events that release processes, in the order of these processes, each with the frame of its
/// process in ticks.
#[derive(Drop)]
pub struct Released<'a> {
    pub events: NameList<'a>,
    pub frames: List<u32>,
}

/// Lists the event that releases a process, if one does, and the frame.
fn list_event<'a>(
    values: &ConstantValues<'_>,
    events: &mut Vec<&'a [u8]>,
    frames: &mut List<u32>,
    process: &'a Process,
) -> Result<(), OutOfMemory>
    ensures events { OnOk result ((rest : List SpecProcess) → names_of events.new.items ++
        released_events rest ≡ names_of events.old.items ++
        released_events (plain_process (placed_process process.now) ∷ rest)) }
    ensures frames { OnOk result ((rest : List SpecProcess) → frames.new ++
        released_frames (plain (placed values.now)) rest ≡ frames.old ++
        released_frames (plain (placed values.now))
        (plain_process (placed_process process.now) ∷ rest)) }
{
    if let Trigger::AtEvent { event, frame, .. } = &process.activation {
        events.push(event.as_bytes())?;
        tri!(frames.push(count(values, frame)));
    }
    Ok(())
}

/// The events that release these processes.
pub fn released_by_events<'a>(
    alloc: Global,
    values: &ConstantValues<'_>,
    processes: &[&'a Process],
) -> Result<Released<'a>, OutOfMemory>
    ensures events { IfOk result (λ r. r.events ≡ released_events (seen_processes processes.now)) }
    ensures frames { IfOk result (λ r. r.frames ≡
        released_frames (plain (placed values.now)) (seen_processes processes.now)) }
{
    let mut events = Vec::new(alloc);
    let mut frames = List::new(alloc);
    for process in processes {
        tri!(list_event(values, &mut events, &mut frames, process));
    }
    let events = tri!(NameList::new(alloc, events));
    Ok(Released { events, frames })
}

impl<'a> Released<'a> {
    /// The frame of the first process that an event releases, 0 where it releases none.
    pub fn frame(&self, event: &Name) -> u32
        ensures { result ≡ frame_found self.now.frames (index_of event.now self.now.events) }
    {
        match self.events.index(event) {
            Some(index) => self.frames.get(index).copied().unwrap_or(0),
            None => 0,
        }
    }
}
