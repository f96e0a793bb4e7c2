//! The variables of a text.

ghost use Rattle.std.specs.Prelude.{◌≡◌, ◌≤◌, ◌<◌, ◌+◌, ◌^◌, IfOk};
ghost use Rattle.syntax_tree.specs.Placed.{placed, placed_monitor, placed_process, placed_routine, plain, plain_monitor, plain_process, plain_routine};
ghost use Rattle.code_spec.specs.Layout.{monitor_vars, places_from, routine_places, routine_vars_words, words_of};
ghost use Rattle.codegen_spec.specs.declared.var_location.Area.TheVariants as in_area;
ghost use Rattle.code_layout.specs.LookupTables.{IsLaid};

use crate::{ConstantValues, VarLayout, lay_members, lay_params, lay_vars};
use codegen_spec::Area;
use out_of_memory::OutOfMemory;
use std::alloc::Global;
use syntax_tree::{Monitor, Process, Routine};

/// The parameters and variables of a routine.
pub fn laid_routine<'a>(
    alloc: Global,
    values: &ConstantValues<'_>,
    routine: &'a Routine,
) -> Result<VarLayout<'a>, OutOfMemory>
    ensures places { IfOk result (λ laid. IsLaid in_area.Frame
        (routine_places (plain (placed values.now)) (plain_routine (placed_routine routine.now)))
        laid.names.items laid.spots.items) }
    ensures words { IfOk result (λ laid. laid.word ≡
        routine_vars_words (plain (placed values.now))
        (plain_routine (placed_routine routine.now))) }
    ensures small { IfOk result (λ laid. laid.word < 2 ^ 100) }
{
    let mut laid = VarLayout::new(alloc, 0);
    lay_params(values, &mut laid, routine.params.as_slice())?;
    lay_vars(values, Area::Frame, &mut laid, routine.vars.as_slice())?;
    Ok(laid)
}

/// The variables of a process.
pub fn laid_process<'a>(
    alloc: Global,
    values: &ConstantValues<'_>,
    process: &'a Process,
) -> Result<VarLayout<'a>, OutOfMemory>
    ensures places { IfOk result (λ laid. IsLaid in_area.Process
        (places_from (plain (placed values.now)) 0
        (plain_process (placed_process process.now)).vars) laid.names.items laid.spots.items) }
    ensures words { IfOk result (λ laid. laid.word ≡
        words_of (plain (placed values.now)) (plain_process (placed_process process.now)).vars) }
{
    let mut laid = VarLayout::new(alloc, 0);
    lay_vars(values, Area::Process, &mut laid, process.vars.as_slice())?;
    Ok(laid)
}

/// The variables of a monitor, whose words begin at this one.
pub fn laid_monitor<'a>(
    alloc: Global,
    values: &ConstantValues<'_>,
    base: u128,
    monitor: &'a Monitor,
) -> Result<VarLayout<'a>, OutOfMemory>
    requires { base ≤ 2 ^ 98 }
    ensures places { IfOk result (λ laid. IsLaid in_area.Monitor
        (places_from (plain (placed values.now)) base
        (monitor_vars (plain_monitor (placed_monitor monitor.now)))) laid.names.items
        laid.spots.items) }
    ensures words { IfOk result (λ laid. laid.word ≡ base +
        words_of (plain (placed values.now)) (monitor_vars
        (plain_monitor (placed_monitor monitor.now)))) }
{
    let mut laid = VarLayout::new(alloc, base);
    lay_members(values, &mut laid, monitor.members.as_slice())?;
    Ok(laid)
}
