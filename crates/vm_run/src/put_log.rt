//! Events put as lines.

ghost use Rattle.std.specs.Prelude.{◌≡◌, ◌≢◌, ◌≤◌, [], All, OnOk, OnErr};
ghost use Rattle.outside.specs.Outside.{Appends, AppendsFront, Rose};
ghost use Rattle.event_log.specs.InRange.{AreIn};
ghost use Rattle.event_log.specs.Line.{line_of, log_of};

use base::Event;
use event_log::{LineBuffer, write_line};
use image::ImageNames;
use outside::Sink;

/// The output was cut: a put failed, and nothing was put after it. What was taken is a front of what
/// was to be put.
#[derive(Clone, Copy)]
pub struct OutputCut;

/// Puts the line of an event, which is written over the text.
#[inline(always)]
fn put_line<O: Sink>(
    text: &mut LineBuffer,
    names: &ImageNames,
    event: &Event,
    out: &mut O,
) -> Result<(), OutputCut>
    requires { AreIn names.now event.now }
    ensures whole { OnOk result
        (Appends (O.state out.old).taken (O.state out.new).taken (line_of names.now event.now)) }
    ensures front { OnErr result
        (AppendsFront (O.state out.old).taken (O.state out.new).taken
        (line_of names.now event.now)) }
    ensures failed { OnErr result (Rose (O.state out.old).faults (O.state out.new).faults) }
    ensures count { (O.state out.old).faults ≤ (O.state out.new).faults }
    ensures quiet { OnOk result ((O.state out.new).faults ≡ (O.state out.old).faults) }
{
    write_line(text, names, event);
    match out.put(text.as_slice()) {
        Ok(()) => Ok(()),
        Err(_) => Err(OutputCut),
    }
}

/// Puts the line of each event, one put a line, up to the first put that fails; the lines are
/// written over the text.
pub fn put_all<O: Sink>(
    text: &mut LineBuffer,
    names: &ImageNames,
    events: &[Event],
    out: &mut O,
) -> Result<(), OutputCut>
    requires { All (AreIn names.now) events.now }
    ensures whole { OnOk result
        (Appends (O.state out.old).taken (O.state out.new).taken (log_of names.now events.now)) }
    ensures front { OnErr result
        (AppendsFront (O.state out.old).taken (O.state out.new).taken
        (log_of names.now events.now)) }
    ensures some { OnErr result (log_of names.now events.now ≢ []) }
    ensures failed { OnErr result (Rose (O.state out.old).faults (O.state out.new).faults) }
    ensures count { (O.state out.old).faults ≤ (O.state out.new).faults }
    ensures quiet { OnOk result ((O.state out.new).faults ≡ (O.state out.old).faults) }
{
    for event in events {
        put_line(text, names, event, out)?;
    }
    Ok(())
}
