//! The lines of a script, at their tick.

ghost use Rattle.std.specs.Prelude.{◌≡◌, ◌≤◌, ◌+◌, false, length, slice_set};
ghost use Rattle.arrayvec.specs.ArrayVec.{array_vec_len};
ghost use Rattle.machine_semantics.specs.Image.{Image};
ghost use Rattle.machine_semantics.specs.Starts.{line, lines};
ghost use Rattle.vm_stretch.specs.StartLawsDue.{AreDone};
ghost use Rattle.vm_stretch.specs.Steps.{HasStarted};
ghost use Rattle.vm_state.specs.Board.{IsBoardOf, state_of};
ghost use Rattle.vm_state.specs.Plan.{IsOf};
ghost use Rattle.vm_stretch.specs.Quiet.{line_tick};
ghost use Rattle.vm_releases.specs.Begin.{AreToCome, line_of, lines_of};
ghost use Rattle.vm_releases.specs.Order.{IsOrderOf};

use crate::order::StartOrder;
use crate::release::release_row;
use script::ScriptLine;
use vm_state::{DecodedImage, EventBuffer, MachineState};

/// The tick of a line.
#[inline(always)]
pub(crate) fn tick_of(line: &ScriptLine) -> u64
    ensures { result ≡ line_tick (line_of line.now) }
{
    match *line {
        ScriptLine::Set { tick, .. } | ScriptLine::Occur { tick, .. } => tick,
    }
}

/// Sets a device, if there is one of the number.
fn set_device(devices: &mut Vec<i32>, device: usize, value: i32)
    ensures { devices.new.items ≡ slice_set devices.old.items device value }
{
    if device < devices.len() {
        devices[device] = value;
    }
}

/// What a line says comes at its tick: a device is set, or an event occurs.
fn do_line(
    plan: &DecodedImage,
    order: &StartOrder,
    said: &ScriptLine,
    board: &mut MachineState,
    fired: &mut EventBuffer,
    tick: u64,
)
    ghost image: { Image }
    requires plan { IsOf image plan.now }
    requires order { IsOrderOf image order.now }
    requires board { IsBoardOf image board.old }
    requires now { line_tick (line_of said.now) ≡ tick }
    requires calm { (line image tick (line_of said.now) (state_of board.old)).overrun ≡ false }
    requires room { array_vec_len fired.old +
        length (line image tick (line_of said.now) (state_of board.old)).events ≤ 64 }
    ensures started { HasStarted (line image tick (line_of said.now)) (state_of board.old)
        fired.old.items (state_of board.new) fired.new.items }
    ensures board { IsBoardOf image board.new }
{
    match *said {
        ScriptLine::Set { dev, value, .. } => {
            set_device(&mut board.devices, usize::from(dev), value);
        }
        ScriptLine::Occur { event, .. } => {
            let event = usize::from(event);
            if event < order.by_event.len() {
                let row = order.by_event[event].as_slice();
                release_row(plan, row, board, fired, tick);
            }
        }
    }
}

/// Does the lines of the tick, and counts them as done.
pub(crate) fn do_lines(
    plan: &DecodedImage,
    order: &StartOrder,
    script: &[ScriptLine],
    done: &mut usize,
    board: &mut MachineState,
    fired: &mut EventBuffer,
    tick: u64,
)
    ghost image: { Image }
    requires plan { IsOf image plan.now }
    requires order { IsOrderOf image order.now }
    requires board { IsBoardOf image board.old }
    requires come { AreToCome tick done.old (lines_of script.now) }
    requires calm { (lines image tick (lines_of script.now) (state_of board.old)).overrun ≡ false }
    requires room { array_vec_len fired.old +
        length (lines image tick (lines_of script.now) (state_of board.old)).events ≤ 64 }
    ensures started { HasStarted (lines image tick (lines_of script.now)) (state_of board.old)
        fired.old.items (state_of board.new) fired.new.items }
    ensures board { IsBoardOf image board.new }
    ensures done { AreDone tick done.new (lines_of script.now) }
    ensures within { done.new ≤ length script.now }
{
    while *done < script.len() {
        if tick_of(&script[*done]) != tick {
            return;
        }
        do_line(plan, order, &script[*done], board, fired, tick);
        *done += 1;
    }
}
