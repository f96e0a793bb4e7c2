//! One line of a log.

ghost use Rattle.std.specs.Prelude.{IfSome, IfNone};
ghost use Rattle.base.specs.declared.event.Event.{Event as Event_spec};
ghost use Rattle.event_log.specs.Finding.{AreFound};
ghost use Rattle.event_log.specs.Logs.{AreWordNames, Tells};

use crate::act::read_act;
use crate::find::{NameIndex, Near, find_near};
use base::Event;
use text_fields::{cut_at, unsigned};

/// The greatest tick of a line.
const LAST_TICK: u64 = 999_999_999;

/// The event that a line tells, which is given without its LF; None where it tells none. The names
/// that are near are tried first.
pub fn read_line(line: &[u8], names: &NameIndex<'_, '_>, near: Near) -> Option<Event>
    requires words { AreWordNames names.now.names.now }
    requires found { AreFound names.now }
    ensures found { IfSome result (λ event. Tells names.now.names.now line.now event) }
    ensures none { IfNone result ((event : Event_spec) →
        ¬ Tells names.now.names.now line.now event) }
{
    match cut_at(line, b' ') {
        None => None,
        Some(front) => match unsigned(front.before, LAST_TICK) {
            None => None,
            Some(tick) => match cut_at(front.after, b' ') {
                None => None,
                Some(parts) => match find_near(names, parts.before, near.process) {
                    None => None,
                    Some(proc) => match read_act(names, parts.after, near) {
                        None => None,
                        Some(act) => Some(Event { tick, proc, act }),
                    },
                },
            },
        },
    }
}
