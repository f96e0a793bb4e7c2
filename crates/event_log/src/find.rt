//! Numbers of what a line names.

ghost use Rattle.std.specs.Prelude.{◌≡◌, ◌≢◌, ◌<◌, ℕ, length, IfOk, IfSome, IfNone, IsTrue};
ghost use Rattle.event_log.specs.Line.{condition_name, device_name, monitor_name, process_name};
ghost use Rattle.event_log.specs.Logs.{AreFew};
ghost use Rattle.event_log.specs.Finding.{AreConditionNames, AreFound};

use crate::numbers::{NumbersByName, device_numbers, find, numbers_of};
use base::{Act, Event};
use image::ImageNames;
use out_of_memory::OutOfMemory;
use std::alloc::Global;
use syntax_tree::{List, Name};
use text_fields::is_same;

/// Names, and their numbers by name. A condition's name stands behind that of its monitor.
#[derive(Drop)]
pub struct NameIndex<'a, 't> {
    pub(crate) names: &'a ImageNames,
    pub(crate) processes: NumbersByName<'a>,
    pub(crate) monitors: NumbersByName<'a>,
    pub(crate) conditions: NumbersByName<'t>,
    pub(crate) devices: NumbersByName<'a>,
}

impl<'a, 't> NameIndex<'a, 't> {
    /// The numbers of these names, of which those of the conditions stand behind those of their
    /// monitors in a list of their own. There are at most 65,536 processes, monitors, conditions
    /// and devices each. Want of memory is the only error.
    pub fn new(
        alloc: Global,
        names: &'a ImageNames,
        conditions: &'t List<Name>,
    ) -> Result<NameIndex<'a, 't>, OutOfMemory>
        requires few { AreFew names.now }
        requires conditions { AreConditionNames names.now conditions.now }
        ensures found { IfOk result AreFound }
        ensures names { IfOk result (λ index. index.names.now ≡ names.now) }
    {
        Ok(NameIndex {
            names,
            processes: numbers_of(alloc, names.processes.as_slice())?,
            monitors: numbers_of(alloc, names.monitors.as_slice())?,
            conditions: numbers_of(alloc, conditions.as_slice())?,
            devices: device_numbers(alloc, names)?,
        })
    }
}

/// The number of the process of this name.
pub fn find_process(names: &NameIndex<'_, '_>, word: &[u8]) -> Option<u16>
    requires { AreFound names.now }
    ensures within { IfSome result (λ k. k < length names.now.names.now.processes) }
    ensures found { IfSome result (λ k. process_name names.now.names.now k ≡ word.now) }
    ensures none { IfNone result ((k : ℕ) → k < length names.now.names.now.processes →
        process_name names.now.names.now k ≢ word.now) }
{
    find(&names.processes, word)
}

/// Numbers of names that the lines before have: lines near one another often name the same.
#[derive(Clone, Copy)]
pub struct Near {
    pub process: u16,
    pub device: u16,
    pub monitor: u16,
}

impl Near {
    /// The numbers after one more event.
    pub fn after(self, event: &Event) -> Near
        ensures { result.process ≡ event.now.proc }
    {
        let mut near = self;
        near.process = event.proc;
        match event.act {
            Act::Get { dev, .. } | Act::Put { dev, .. } => near.device = dev,
            Act::Enter { mon } | Act::Leave { mon } => near.monitor = mon,
            _ => {}
        }
        near
    }
}

/// Whether the word is the name of the process of this number.
fn is_process(names: &NameIndex<'_, '_>, word: &[u8], number: u16) -> bool
    ensures within { IsTrue result → number < length names.now.names.now.processes }
    ensures found { IsTrue result → process_name names.now.names.now number ≡ word.now }
{
    match names.names.processes.get(usize::from(number)) {
        None => false,
        Some(name) => is_same(name.as_bytes(), word),
    }
}

/// The same, which tries the process of this number first, and then the one after it: lines of one
/// process often stand together, and processes are often released in turn.
pub fn find_near(names: &NameIndex<'_, '_>, word: &[u8], near: u16) -> Option<u16>
    requires { AreFound names.now }
    ensures within { IfSome result (λ k. k < length names.now.names.now.processes) }
    ensures found { IfSome result (λ k. process_name names.now.names.now k ≡ word.now) }
    ensures none { IfNone result ((k : ℕ) → k < length names.now.names.now.processes →
        process_name names.now.names.now k ≢ word.now) }
{
    if is_process(names, word, near) {
        return Some(near);
    }
    let next = near.saturating_add(1);
    if is_process(names, word, next) {
        return Some(next);
    }
    find_process(names, word)
}

/// The number of the monitor of this name.
fn find_monitor(names: &NameIndex<'_, '_>, word: &[u8]) -> Option<u16>
    requires { AreFound names.now }
    ensures within { IfSome result (λ m. m < length names.now.names.now.monitors) }
    ensures found { IfSome result (λ m. monitor_name names.now.names.now m ≡ word.now) }
    ensures none { IfNone result ((m : ℕ) → m < length names.now.names.now.monitors →
        monitor_name names.now.names.now m ≢ word.now) }
{
    find(&names.monitors, word)
}

/// The number of the condition of this name, which stands behind that of its monitor.
pub fn find_condition(names: &NameIndex<'_, '_>, word: &[u8]) -> Option<u16>
    requires { AreFound names.now }
    ensures within { IfSome result (λ c. c < length names.now.names.now.conditions) }
    ensures found { IfSome result (λ c. condition_name names.now.names.now c ≡ word.now) }
    ensures none { IfNone result ((c : ℕ) → c < length names.now.names.now.conditions →
        condition_name names.now.names.now c ≢ word.now) }
{
    find(&names.conditions, word)
}

/// The number of the device of this name.
fn find_device(names: &NameIndex<'_, '_>, word: &[u8]) -> Option<u16>
    requires { AreFound names.now }
    ensures within { IfSome result (λ d. d < length names.now.names.now.devices) }
    ensures found { IfSome result (λ d. device_name names.now.names.now d ≡ word.now) }
    ensures none { IfNone result ((d : ℕ) → d < length names.now.names.now.devices →
        device_name names.now.names.now d ≢ word.now) }
{
    find(&names.devices, word)
}

/// Whether the word is the name of the device of this number.
fn is_device(names: &NameIndex<'_, '_>, word: &[u8], number: u16) -> bool
    ensures within { IsTrue result → number < length names.now.names.now.devices }
    ensures found { IsTrue result → device_name names.now.names.now number ≡ word.now }
{
    match names.names.devices.get(usize::from(number)) {
        None => false,
        Some(device) => is_same(device.name.as_bytes(), word),
    }
}

/// The number of the device of this name, of which this number is tried first.
pub fn find_device_near(names: &NameIndex<'_, '_>, word: &[u8], near: u16) -> Option<u16>
    requires { AreFound names.now }
    ensures within { IfSome result (λ d. d < length names.now.names.now.devices) }
    ensures found { IfSome result (λ d. device_name names.now.names.now d ≡ word.now) }
    ensures none { IfNone result ((d : ℕ) → d < length names.now.names.now.devices →
        device_name names.now.names.now d ≢ word.now) }
{
    if is_device(names, word, near) {
        return Some(near);
    }
    find_device(names, word)
}

/// Whether the word is the name of the monitor of this number.
fn is_monitor(names: &NameIndex<'_, '_>, word: &[u8], number: u16) -> bool
    ensures within { IsTrue result → number < length names.now.names.now.monitors }
    ensures found { IsTrue result → monitor_name names.now.names.now number ≡ word.now }
{
    match names.names.monitors.get(usize::from(number)) {
        None => false,
        Some(name) => is_same(name.as_bytes(), word),
    }
}

/// The number of the monitor of this name, of which this number is tried first.
pub fn find_monitor_near(names: &NameIndex<'_, '_>, word: &[u8], near: u16) -> Option<u16>
    requires { AreFound names.now }
    ensures within { IfSome result (λ m. m < length names.now.names.now.monitors) }
    ensures found { IfSome result (λ m. monitor_name names.now.names.now m ≡ word.now) }
    ensures none { IfNone result ((m : ℕ) → m < length names.now.names.now.monitors →
        monitor_name names.now.names.now m ≢ word.now) }
{
    if is_monitor(names, word, near) {
        return Some(near);
    }
    find_monitor(names, word)
}
