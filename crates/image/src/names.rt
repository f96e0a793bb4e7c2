//! The names of an image.

use syntax_tree::{List, Name};

/// A condition, with the number of its monitor.
#[derive(Debug, Drop)]
pub struct ConditionName {
    pub name: Name,
    pub mon: u16,
}

/// A device, with its direction.
#[derive(Debug, Drop)]
pub struct DeviceName {
    pub name: Name,
    pub out: bool,
}

/// An event, with the frame of its process in ticks.
#[derive(Debug, Drop)]
pub struct EventName {
    pub name: Name,
    pub frame: u32,
}

/// The names of an image, each list in the order of the program text. Numbers of processes,
/// monitors, conditions, devices and events are places in these lists, from 0.
#[derive(Debug, Drop)]
pub struct ImageNames {
    pub processes: List<Name>,
    pub monitors: List<Name>,
    pub conditions: List<ConditionName>,
    pub devices: List<DeviceName>,
    pub events: List<EventName>,
}
