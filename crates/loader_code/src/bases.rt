//! One test of an image as code: the words of each monitor stand right after those of the one
//! before.
//!
//! Its definition is `base_fault` of `valid_image`. It promises the fault of the first monitor that
//! has one, with its two numbers, and none exactly where no monitor has one.
//!
//! Where the words of monitors stand.

ghost use Rattle.std.specs.Prelude.{◌≡◌, map};
ghost use Rattle.image.specs.Raw.{monitor_of};
ghost use Rattle.valid_image.specs.Sizes.{base_fault as defined_fault};
ghost use Rattle.loader_code.specs.Told.{told};

use image::RawMonitor;

/// The two numbers of a fault.
#[derive(Clone, Copy)]
pub struct FaultNumbers {
    pub a: u64,
    pub b: u64,
}

/// The first monitor whose words do not stand right after those of the one before, with its base
/// and the base that is due.
pub fn base_fault(monitors: &[RawMonitor]) -> Option<FaultNumbers>
    ensures { told result ≡ defined_fault (map monitor_of monitors.now) }
{
    let mut due: u64 = 0;
    for m in 0..monitors.len() {
        let base = monitors[m].base as u64;
        if base != due {
            return Some(FaultNumbers { a: base, b: due });
        }
        due = base + monitors[m].words as u64;
    }
    None
}
