//! Devices and monitors.

ghost use Rattle.std.specs.Prelude.{◌≡◌, ◌<◌, Some, None, unsigned_abs, true, ℤ, length};
ghost use Rattle.machine_isa.specs.declared.instr.Instr.TheVariants as i;
ghost use Rattle.vm_instructions.specs.Frames.{IsValueFirst, used};
ghost use Rattle.vm_instructions.specs.Steps.{HasWord};
ghost use Rattle.vm_state.specs.Seen.{DoesEmpty, DoesEnter, DoesGet, DoesLeave, DoesPut, DoesWait, IsLimit, IsSmall};

use crate::queues::Queues;
use base::Act;
use vm_instructions::Frames;

/// Takes a number to a device.
#[inline(always)]
pub fn put(frames: &mut Frames, device: i32) -> Act
    requires first { IsValueFirst frames.old.operands }
    requires device { IsSmall device }
    ensures does { DoesPut device frames.old result frames.new }
    ensures room { frames.new.room ≡ frames.old.room }
{
    let value = frames.take();
    Act::Put {
        dev: device as u16,
        value,
    }
}

/// Puts the value of a device on the stack.
#[inline(always)]
pub fn get(frames: &mut Frames, devices: &[i32], device: i32) -> Act
    requires room { used frames.old < frames.old.room }
    requires device { IsSmall device }
    requires there { HasWord devices.now device }
    ensures does { DoesGet device devices.now frames.old result frames.new }
    ensures room { frames.new.room ≡ frames.old.room }
{
    let value = devices[device as usize];
    frames.give(value);
    Act::Get {
        dev: device as u16,
        value,
    }
}

/// Puts 1 on the stack where nobody waits on the condition, else 0.
#[inline(always)]
pub fn empty(frames: &mut Frames, queues: &Queues, condition: i32) -> Act
    requires room { used frames.old < frames.old.room }
    requires condition { IsSmall condition }
    requires there { unsigned_abs condition < length queues.now }
    ensures does { DoesEmpty condition queues.now frames.old result frames.new }
    ensures room { frames.new.room ≡ frames.old.room }
{
    let answer = queues.waiting(condition as usize).is_empty();
    frames.give(i32::from(answer));
    Act::Empty {
        cond: condition as u16,
        answer,
    }
}

/// Enters a monitor, at first or again after a wait.
#[inline(always)]
pub fn enter(inside: &mut Option<u16>, monitor: i32) -> Act
    requires monitor { IsSmall monitor }
    requires outside { inside.old ≡ None }
    ensures { DoesEnter monitor inside.old result inside.new }
{
    let mon = monitor as u16;
    *inside = Some(mon);
    Act::Enter { mon }
}

/// Leaves a monitor.
#[inline(always)]
pub fn leave(inside: &mut Option<u16>, monitor: i32) -> Act
    requires monitor { IsSmall monitor }
    requires inside { inside.old ≡ Some (unsigned_abs monitor) }
    ensures { DoesLeave monitor inside.old result inside.new }
{
    *inside = None;
    Act::Leave {
        mon: monitor as u16,
    }
}

/// A wait that begins: its condition, how long it may take, and the number that is raised then.
#[derive(Clone, Copy)]
pub struct WaitRequest {
    pub condition: u16,
    pub limit: u32,
    pub number: u16,
}

/// Leaves the monitor to wait.
#[inline(always)]
pub fn wait(inside: &mut Option<u16>, condition: i32, limit: i32, number: i32) -> WaitRequest
    requires condition { IsSmall condition }
    requires limit { IsLimit limit }
    requires number { IsSmall number }
    ensures { DoesWait condition limit number inside.old result inside.new }
{
    *inside = None;
    WaitRequest {
        condition: condition as u16,
        limit: limit as u32,
        number: number as u16,
    }
}
