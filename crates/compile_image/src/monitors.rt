//! The monitors of an image.

ghost use Rattle.std.specs.Prelude.{◌≡◌, ◌+◌, ◌≤◌, IfOk, map};
ghost use Rattle.syntax_tree.specs.Placed.{placed, placed_monitor, plain, plain_monitor};
ghost use Rattle.image.specs.Raw.{monitor_of};
ghost use Rattle.code_spec.specs.Layout.{monitor_vars, words_of};
ghost use Rattle.code_names.specs.Parts.{seen_monitors};
ghost use Rattle.compile_image.specs.Fields.{monitors_words};
ghost use Rattle.compile_image.specs.Told.{monitor_told, monitors_told};

use crate::errors::tri;
use code_layout::{ConstantValues, laid_monitor};
use image::RawMonitor;
use out_of_memory::OutOfMemory;
use std::alloc::Global;
use syntax_tree::{List, Monitor};

/// A monitor whose words begin at this one.
fn raw_monitor(
    alloc: Global,
    values: &ConstantValues<'_>,
    base: u32,
    monitor: &Monitor,
) -> Result<RawMonitor, OutOfMemory>
    requires { base + words_of (plain (placed values.now))
        (monitor_vars (plain_monitor (placed_monitor monitor.now))) ≤ 1048576 }
    ensures told { IfOk result (λ raw. monitor_of raw ≡
        monitor_told (plain (placed values.now)) base
        (plain_monitor (placed_monitor monitor.now))) }
    ensures words { IfOk result (λ raw. raw.words ≡ words_of (plain (placed values.now))
        (monitor_vars (plain_monitor (placed_monitor monitor.now)))) }
{
    let laid = tri!(laid_monitor(alloc, values, u128::from(base), monitor));
    let end = laid.word as u32;
    Ok(RawMonitor {
        base,
        words: end - base,
        ceiling: 0,
    })
}

/// The monitors, the words of each right behind those of the one before.
pub fn raw_monitors(
    alloc: Global,
    values: &ConstantValues<'_>,
    monitors: &[&Monitor],
) -> Result<List<RawMonitor>, OutOfMemory>
    requires { monitors_words (plain (placed values.now)) (seen_monitors monitors.now) ≤ 1048576 }
    ensures { IfOk result (λ list. map monitor_of list ≡
        monitors_told (plain (placed values.now)) 0 (seen_monitors monitors.now)) }
{
    let mut list = List::new(alloc);
    let mut base = 0;
    for monitor in monitors {
        let raw = tri!(raw_monitor(alloc, values, base, monitor));
        base += raw.words;
        tri!(list.push(raw));
    }
    Ok(list)
}
