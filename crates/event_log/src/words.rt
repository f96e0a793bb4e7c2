//! Names that are words.

ghost use Rattle.std.specs.Prelude.{◌≡◌, ◌<◌, true, false, length, All};
ghost use Rattle.text_fields.specs.Fields.{IsWord};
ghost use Rattle.event_log.specs.Logs.{AreWordNames};

use image::{ConditionName, DeviceName, ImageNames};
use syntax_tree::Name;
use text_fields::{cut_at, is_word};

/// Whether the name is a word.
fn is_name(bytes: &[u8]) -> bool
    ensures yes { result ≡ true → IsWord bytes.now }
    ensures no { result ≡ false → ¬ IsWord bytes.now }
{
    match cut_at(bytes, b'\n') {
        None => is_word(bytes),
        Some(_) => false,
    }
}

/// Whether all the names are words.
fn are_names(list: &[Name]) -> bool
    ensures yes { result ≡ true → All IsWord list.now }
    ensures no { result ≡ false → ¬ All IsWord list.now }
{
    for name in list {
        if !is_name(name.as_bytes()) {
            return false;
        }
    }
    true
}

/// Whether the names of all the conditions are words.
fn are_conditions(list: &[ConditionName]) -> bool
    ensures yes { result ≡ true → All (λ condition. IsWord condition.name) list.now }
    ensures no { result ≡ false → ¬ All (λ condition. IsWord condition.name) list.now }
{
    for condition in list {
        if !is_name(condition.name.as_bytes()) {
            return false;
        }
    }
    true
}

/// Whether all the conditions stand in one of so many monitors.
fn are_placed(list: &[ConditionName], monitors: usize) -> bool
    ensures yes { result ≡ true → All (λ condition. condition.mon < monitors) list.now }
    ensures no { result ≡ false → ¬ All (λ condition. condition.mon < monitors) list.now }
{
    for condition in list {
        if usize::from(condition.mon) >= monitors {
            return false;
        }
    }
    true
}

/// Whether the names of all the devices are words.
fn are_devices(list: &[DeviceName]) -> bool
    ensures yes { result ≡ true → All (λ device. IsWord device.name) list.now }
    ensures no { result ≡ false → ¬ All (λ device. IsWord device.name) list.now }
{
    for device in list {
        if !is_name(device.name.as_bytes()) {
            return false;
        }
    }
    true
}

/// Whether each name is a word, without spaces and LF, and each condition stands in a monitor.
pub fn are_words(names: &ImageNames) -> bool
    ensures yes { result ≡ true → AreWordNames names.now }
    ensures no { result ≡ false → ¬ AreWordNames names.now }
{
    if !are_names(names.processes.as_slice()) {
        return false;
    }
    if !are_names(names.monitors.as_slice()) {
        return false;
    }
    if !are_conditions(names.conditions.as_slice()) {
        return false;
    }
    if !are_placed(names.conditions.as_slice(), names.monitors.len()) {
        return false;
    }
    are_devices(names.devices.as_slice())
}
