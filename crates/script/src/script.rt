//! Scripts.

ghost use Rattle.std.specs.Prelude.{◌≡◌};

use syntax_tree::List;

/// A line of a script: at a tick an in device is set to a value, or an event occurs. Devices and
/// events are named by their numbers in the order of the image, from 0.
#[derive(Clone, Copy, PartialEq, Eq)]
pub enum ScriptLine {
    Set { tick: u64, dev: u16, value: i32 },
    Occur { tick: u64, event: u16 },
}

/// The lines of a script, and the tick before which its run ends.
#[derive(Drop)]
pub struct Script {
    pub(crate) lines: List<ScriptLine>,
    pub(crate) end: u64,
}

impl Script {
    /// The lines, in the order of the text.
    pub fn lines(&self) -> &List<ScriptLine>
        ensures { result.now ≡ self.now.lines }
    {
        &self.lines
    }

    /// The tick before which the run ends.
    pub fn end(&self) -> u64
        ensures { result ≡ self.now.end }
    {
        self.end
    }
}
