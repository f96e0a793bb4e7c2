//! What devices answer.

ghost use Rattle.std.specs.Prelude.{map, ◌≡◌};
ghost use Rattle.source_semantics.specs.Starts.{device_value as value_at, value_set};
ghost use Rattle.script.specs.Meaning.{line_said};
ghost use Rattle.replay_script.specs.Cursors.{IsWithin, script_in};
ghost use Rattle.replay_script.specs.Devices.{value_after};

use crate::cursor::ScriptCursor;
use script::ScriptLine;

/// What the device answers at the tick: the value set last, 0 where there is none.
pub fn device_value(script: &ScriptCursor<'_>, tick: u64, device: usize) -> i32
    requires { IsWithin tick script.now }
    ensures { result ≡ value_at (script_in script.now) tick device }
{
    set_up_to(script.up_to(tick), tick, device, script.kept_word(device))
}

/// The value that these lines set last up to the tick, or the one before them.
fn set_up_to(lines: &[ScriptLine], tick: u64, device: usize, before: i32) -> i32
    ensures { result ≡ value_set tick device before (map line_said lines.now) }
{
    let mut last = before;
    for line in lines {
        last = set_by(line, tick, device, last);
    }
    last
}

/// The value after a line, where it was this one before it.
fn set_by(line: &ScriptLine, tick: u64, device: usize, before: i32) -> i32
    ensures { result ≡ value_after tick device before line.now }
{
    match *line {
        ScriptLine::Occur { .. } => before,
        ScriptLine::Set {
            tick: at,
            dev,
            value,
        } => {
            if usize::from(dev) == device && at <= tick {
                value
            } else {
                before
            }
        }
    }
}
