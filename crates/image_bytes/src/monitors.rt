//! Monitors.

ghost use Rattle.std.specs.Prelude.{◌≡◌, true};
ghost use Rattle.image.specs.Raw.{monitor_of};
ghost use Rattle.image_bytes.specs.Reads.{MonitorIsRead};
ghost use Rattle.image_reader.specs.Grammar.{monitor_format};

use image::RawMonitor;

/// Where its words begin and how many they are, and its ceiling.
fn monitor_fits(monitor: &RawMonitor)
    ensures { monitor_format.is (monitor_of monitor.now) ≡ true }
{
    let _base = monitor.base;
    let _words = monitor.words;
    let _ceiling = monitor.ceiling;
}

/// The bytes of a monitor are read as it is. The call does nothing.
pub fn monitor_is_read(monitor: &RawMonitor)
    ensures { MonitorIsRead (monitor_of monitor.now) }
{
    monitor_fits(monitor);
}
