//! Lists of parts that the bytes begin with. Each has as many as the counts say.

ghost use Rattle.std.specs.Prelude.{◌≡◌, ◌++◌, ◌∷◌, [], false, map, IfOk, OnOk};
ghost use Rattle.image.specs.Raw.{routine_of};
ghost use Rattle.image_format.specs.Gives.{Gives};
ghost use Rattle.image_format.specs.Format.{each};
ghost use Rattle.image_reader.specs.Grammar.{has, instr_format, is_again};
ghost use Rattle.image_reader.specs.File.{conditions_format, devices_format, events_format, routines_format};

use crate::counts::Counts;
use crate::fault::{tri, tri_fault, tri_memory};
use crate::instr::instr_at;
use crate::names::{add_name, name_at};
use crate::parts::{condition_at, device_at, routine_at};
use crate::taken::{EarlierConditions, TakenNames};
use image::{ConditionName, DeviceName, RawRoutine};
use image_format::ReadError;
use machine_isa::Instr;
use out_of_memory::OutOfMemory;
use std::alloc::Global;
use syntax_tree::{List, Name};

/// Adds a device, and takes its name.
fn add_device(
    alloc: Global,
    devices: &mut List<DeviceName>,
    taken: &mut TakenNames,
    device: DeviceName,
) -> Result<(), OutOfMemory>
    requires { has taken.old device.name ≡ false }
    ensures devices { OnOk result (devices.new ≡ devices.old ++ device ∷ []) }
    ensures taken { OnOk result (taken.new ≡ taken.old ++ device.name ∷ []) }
{
    tri!(taken.take(alloc, &device.name));
    devices.push(device)
}

/// The devices, whose names are taken.
pub fn devices_at<'a>(
    alloc: Global,
    bytes: &'a [u8],
    counts: &Counts,
    taken: &mut TakenNames,
) -> Result<(List<DeviceName>, &'a [u8]), ReadError>
    ensures read { Gives (λ x. (x.0, x.1.now)) result
        ((devices_format counts.now taken.old).read bytes.now) }
    ensures taken { IfOk result (λ x. taken.new ≡ taken.old ++ map (λ d. d.name) x.0) }
{
    let mut devices = List::new(alloc);
    let mut rest = bytes;
    for _ in 0..counts.devices {
        let (device, after) = tri!(device_at(alloc, rest, taken));
        tri_memory!(add_device(alloc, &mut devices, taken, device));
        rest = after;
    }
    Ok((devices, rest))
}

/// The names of the events, which are taken.
pub fn events_at<'a>(
    alloc: Global,
    bytes: &'a [u8],
    counts: &Counts,
    taken: &mut TakenNames,
) -> Result<(List<Name>, &'a [u8]), ReadError>
    ensures read { Gives (λ x. (x.0, x.1.now)) result
        ((events_format counts.now taken.old).read bytes.now) }
    ensures taken { IfOk result (λ x. taken.new ≡ taken.old ++ x.0) }
{
    let mut events = List::new(alloc);
    let mut rest = bytes;
    for _ in 0..counts.events {
        let (event, after) = tri!(name_at(alloc, rest, taken));
        tri_memory!(add_name(alloc, &mut events, taken, event));
        rest = after;
    }
    Ok((events, rest))
}

/// Adds a condition, and notes it.
fn add_condition(
    alloc: Global,
    conditions: &mut List<ConditionName>,
    earlier: &mut EarlierConditions,
    condition: ConditionName,
) -> Result<(), OutOfMemory>
    requires { is_again earlier.old condition ≡ false }
    ensures conditions { OnOk result (conditions.new ≡ conditions.old ++ condition ∷ []) }
    ensures earlier { OnOk result (earlier.new ≡ earlier.old ++ condition ∷ []) }
{
    tri!(earlier.note(alloc, &condition));
    conditions.push(condition)
}

/// The conditions, each of which is noted; none is yet.
fn conditions_after<'a>(
    alloc: Global,
    bytes: &'a [u8],
    counts: &Counts,
    taken: &TakenNames,
    earlier: &mut EarlierConditions,
) -> Result<(List<ConditionName>, &'a [u8]), ReadError>
    requires { earlier.old ≡ [] }
    ensures { Gives (λ x. (x.0, x.1.now)) result
        ((conditions_format counts.now taken.now).read bytes.now) }
{
    let mut conditions = List::new(alloc);
    let mut rest = bytes;
    for _ in 0..counts.conditions {
        let (condition, after) = tri!(condition_at(alloc, rest, taken, counts.monitors, earlier));
        tri_memory!(add_condition(alloc, &mut conditions, earlier, condition));
        rest = after;
    }
    Ok((conditions, rest))
}

/// The conditions.
pub fn conditions_at<'a>(
    alloc: Global,
    bytes: &'a [u8],
    counts: &Counts,
    taken: &TakenNames,
) -> Result<(List<ConditionName>, &'a [u8]), ReadError>
    ensures { Gives (λ x. (x.0, x.1.now)) result
        ((conditions_format counts.now taken.now).read bytes.now) }
{
    let mut earlier = EarlierConditions::new(alloc);
    conditions_after(alloc, bytes, counts, taken, &mut earlier)
}

/// The routines.
pub fn routines_at<'a>(
    alloc: Global,
    bytes: &'a [u8],
    counts: &Counts,
) -> Result<(List<RawRoutine>, &'a [u8]), ReadError>
    ensures { Gives (λ x. (map routine_of x.0, x.1.now)) result
        ((routines_format counts.now).read bytes.now) }
{
    let mut routines = List::new(alloc);
    let mut rest = bytes;
    for _ in 0..counts.routines {
        let (routine, after) = tri!(routine_at(alloc, rest, counts));
        tri_memory!(routines.push(routine));
        rest = after;
    }
    Ok((routines, rest))
}

/// The instructions.
pub fn instrs_at(alloc: Global, bytes: &[u8], count: u32) -> Result<(List<Instr>, &[u8]), ReadError>
    ensures { Gives (λ x. (x.0, x.1.now)) result
        ((each (λ earlier. instr_format) [] count).read bytes.now) }
{
    let mut code = List::new(alloc);
    let mut rest = bytes;
    for _ in 0..count {
        let (instr, after) = tri_fault!(instr_at(rest));
        tri_memory!(code.push(instr));
        rest = after;
    }
    Ok((code, rest))
}
