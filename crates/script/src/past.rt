//! What is kept of the lines that were read, and what is wrong with a line after them.

ghost use Rattle.std.specs.Prelude.{◌≡◌, ◌++◌, ◌∷◌, [], ◌<◌, ◌≤◌, length, All, None, Some, IfOk, IfErr, OnOk, true};
ghost use Rattle.script.specs.Faults.{event_flaw, flaw, is_above as above, is_from as from_last, too_soon as too_soon_after};
ghost use Rattle.script.specs.Reading.{IsPast, AreNumbers, IsUpTo, seen};
ghost use Rattle.script.specs.Scripts.{event_number, frame_of as frame_in, in_device, meaning, tick_of, IsWithin};

use crate::fault::Flaw;
use crate::line::Line;
use crate::numbers::{SymbolNumbers, find};
use crate::script::ScriptLine;
use image::ImageNames;
use out_of_memory::OutOfMemory;
use std::alloc::Global;
use syntax_tree::List;

/// The lines that were read, the tick of the last one, and by event that of its last occurrence.
#[derive(Drop)]
pub struct Past {
    pub lines: List<ScriptLine>,
    pub last: Option<u64>,
    pub occurred: Vec<Option<u64>>,
}

/// Whether the tick is not below the last one.
#[inline(always)]
fn is_from(tick: u64, last: Option<u64>) -> bool
    ensures { result ≡ from_last tick last }
{
    match last {
        None => true,
        Some(last) => last <= tick,
    }
}

/// Whether the tick is above the last one.
fn is_above(tick: u64, last: Option<u64>) -> bool
    ensures { result ≡ above tick last }
{
    match last {
        None => true,
        Some(last) => last < tick,
    }
}

/// The flaw of an occurrence less than a frame after the last one.
fn too_soon(tick: u64, frame: u32, last: Option<u64>) -> Option<Flaw>
    ensures { result ≡ too_soon_after tick frame last }
{
    match last {
        None => None,
        Some(last) => {
            if tick >= last && tick - last >= u64::from(frame) {
                None
            } else {
                Some(Flaw::Soon { last, tick })
            }
        }
    }
}

/// The frame of the process that the event releases.
fn frame_of(names: &ImageNames, number: u16) -> u32
    ensures { result ≡ frame_in names.now number }
{
    match names.events.get(number as usize) {
        None => 0,
        Some(event) => event.frame,
    }
}

impl Past {
    /// Before the first line.
    pub fn new(alloc: Global, names: &ImageNames) -> Result<Past, OutOfMemory>
        ensures past { IfOk result (λ past.
            IsPast names.now past.lines past.last past.occurred.items) }
        ensures none { IfOk result (λ past. past.lines ≡ []) }
    {
        Ok(Past {
            lines: List::new(alloc),
            last: None,
            occurred: vec![in alloc; None; names.events.len()]?,
        })
    }

    /// What the line means to the names, or what is wrong with it after these lines. An end means
    /// no line.
    #[inline(always)]
    pub fn judge(
        &self,
        names: &ImageNames,
        devices: &SymbolNumbers<'_>,
        events: &SymbolNumbers<'_>,
        line: Line<'_>,
    ) -> Result<Option<ScriptLine>, Flaw>
        requires past { IsPast names.now self.now.lines self.now.last self.now.occurred.items }
        requires devices { AreNumbers devices.now.entries (in_device names.now) }
        requires events { AreNumbers events.now.entries (event_number names.now) }
        ensures right { OnOk result (flaw names.now self.now.lines (seen line.entry) ≡ None) }
        ensures means { IfOk result (λ means. means ≡ meaning names.now (seen line.entry)) }
        ensures wrong { IfErr result (λ kind.
            flaw names.now self.now.lines (seen line.entry) ≡ Some kind) }
    {
        match line {
            Line::Set { tick, dev, value } => match find(devices, dev) {
                None => Err(Flaw::Unknown),
                Some(dev) => {
                    if is_from(tick, self.last) {
                        Ok(Some(ScriptLine::Set { tick, dev, value }))
                    } else {
                        Err(Flaw::Early)
                    }
                }
            },
            Line::Event { tick, name } => match find(events, name) {
                None => Err(Flaw::Unknown),
                Some(event) => self.judge_event(names, tick, event),
            },
            Line::End { tick } => {
                if is_above(tick, self.last) {
                    Ok(None)
                } else {
                    Err(Flaw::Early)
                }
            }
        }
    }

    /// The line of an occurrence, or what is wrong with it after these lines.
    fn judge_event(
        &self,
        names: &ImageNames,
        tick: u64,
        event: u16,
    ) -> Result<Option<ScriptLine>, Flaw>
        requires past { IsPast names.now self.now.lines self.now.last self.now.occurred.items }
        requires event { event < length names.now.events }
        ensures right { OnOk result (event_flaw names.now self.now.lines tick event ≡ None) }
        ensures means { IfOk result (λ means. means ≡ Some (ScriptLine.Occur tick event)) }
        ensures wrong { IfErr result (λ kind.
            event_flaw names.now self.now.lines tick event ≡ Some kind) }
    {
        if !is_from(tick, self.last) {
            return Err(Flaw::Early);
        }
        match too_soon(tick, frame_of(names, event), self.occurred[event as usize]) {
            None => Ok(Some(ScriptLine::Occur { tick, event })),
            Some(flaw) => Err(flaw),
        }
    }

    /// One more line.
    pub fn add(&mut self, names: &ImageNames, line: ScriptLine) -> Result<(), OutOfMemory>
        requires past { IsPast names.now self.old.lines self.old.last self.old.occurred.items }
        requires within { IsWithin names.now line }
        requires order { from_last (tick_of line) self.old.last ≡ true }
        ensures past { OnOk result
            (IsPast names.now self.new.lines self.new.last self.new.occurred.items) }
        ensures lines { OnOk result (self.new.lines ≡ self.old.lines ++ line ∷ []) }
    {
        self.lines.push(line)?;
        match line {
            ScriptLine::Set { tick, .. } => self.last = Some(tick),
            ScriptLine::Occur { tick, event } => {
                self.last = Some(tick);
                self.occurred[event as usize] = Some(tick);
            }
        }
        Ok(())
    }
}
