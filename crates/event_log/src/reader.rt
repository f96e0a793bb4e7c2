//! A log that is read line by line.

ghost use Rattle.std.specs.Prelude.{◌≡◌, ◌<◌, ◌++◌, ◌∷◌, [], List, ℕ, length, IfErr, IfNone, IfOk, IfSome};
ghost use Rattle.base.specs.declared.event.Event.{Event as Event_spec};
ghost use Rattle.text_fields.specs.Fields.{IsCutAt, Lacks};
ghost use Rattle.event_log.specs.Finding.{AreFound};
ghost use Rattle.event_log.specs.Logs.{IsFault, IsLog};
ghost use Rattle.event_log.specs.Reader.{HasRead, HasReadAll, IsReader, names_of};

use crate::fault::LogFault;
use crate::find::{NameIndex, Near};
use crate::line::read_line;
use crate::words::are_words;
use base::Event;
use memchr::memchr;
use text_fields::Cut;

/// How many bytes a log has at most.
const LONGEST_TEXT: usize = 67_108_864;

/// A log that is read line by line. It keeps no event that was read.
#[derive(Drop)]
pub struct LogReader<'l> {
    /// The names that its lines can tell.
    pub(crate) index: &'l NameIndex<'l, 'l>,
    /// The text from the next line on.
    pub(crate) rest: &'l [u8],
    /// How many lines were read.
    pub(crate) lines: u32,
    pub(crate) near: Near,
}

/// The first line of the text, without its LF, and the text behind it; None where there is no LF.
fn first_line(text: &[u8]) -> Option<Cut<'_>>
    ensures found { IfSome result (λ cut. IsCutAt 10 text.now cut.before.now cut.after.now) }
    ensures none { IfNone result (Lacks 10 text.now) }
{
    match memchr(b'\n', text) {
        None => None,
        Some(len) => Some(Cut {
            before: &text[..len],
            after: &text[len + 1..],
        }),
    }
}

impl<'l> LogReader<'l> {
    /// The log that a text is, before its first line.
    ///
    /// # Errors
    ///
    /// `Long` exactly where the text has more than 67,108,864 bytes. The first line is refused here
    /// where a name is no word.
    pub fn new(index: &'l NameIndex<'l, 'l>, text: &'l [u8]) -> Result<LogReader<'l>, LogFault>
        requires { AreFound index.now }
        ensures reader { IfOk result IsReader }
        ensures names { IfOk result (λ reader. names_of reader ≡ index.now.names.now) }
        ensures read { IfOk result (HasRead text.now []) }
        ensures fault { IfErr result (IsFault index.now.names.now text.now) }
    {
        if text.len() > LONGEST_TEXT {
            return Err(LogFault::Long);
        }
        if !text.is_empty() && !are_words(index.names) {
            return Err(LogFault::Line(1));
        }
        Ok(LogReader {
            index,
            rest: text,
            lines: 0,
            near: Near {
                process: 0,
                device: 0,
                monitor: 0,
            },
        })
    }

    /// How many lines were read.
    pub fn lines(&self) -> u32
        ensures { result ≡ self.now.lines }
    {
        self.lines
    }

    /// The event of the next line, or None behind the last.
    ///
    /// # Errors
    ///
    /// The line is the text of no event for the names; bytes after the last LF are such a line.
    pub fn next(&mut self) -> Result<Option<Event>, LogFault>
        requires { IsReader self.old }
        ensures reader { IsReader self.new }
        ensures names { self.new.index ≡ self.old.index }
        ensures some { IfOk result (λ next. IfSome next (λ event.
            (text : List ℕ) (events : List Event_spec) → HasRead text events self.old →
            HasRead text (events ++ event ∷ []) self.new)) }
        ensures less { IfOk result (λ next. IfSome next (λ event.
            length self.new.rest.now < length self.old.rest.now)) }
        ensures none { IfOk result (λ next. IfNone next ((text : List ℕ)
            (events : List Event_spec) → HasRead text events self.old →
            HasRead text events self.new × IsLog (names_of self.old) text events)) }
        ensures fault { IfErr result (λ fault. (text : List ℕ) (events : List Event_spec) →
            HasRead text events self.old → IsFault (names_of self.old) text fault) }
    {
        if self.rest.is_empty() {
            return Ok(None);
        }
        match first_line(self.rest) {
            None => Err(LogFault::Line(self.lines + 1)),
            Some(parts) => match read_line(parts.before, self.index, self.near) {
                None => Err(LogFault::Line(self.lines + 1)),
                Some(event) => {
                    self.near = self.near.after(&event);
                    self.rest = parts.after;
                    self.lines += 1;
                    Ok(Some(event))
                }
            },
        }
    }

    /// Reads the lines that are left, for their faults alone.
    ///
    /// # Errors
    ///
    /// As those of `next`.
    pub fn read_to_end(&mut self) -> Result<(), LogFault>
        requires { IsReader self.old }
        ensures names { self.new.index ≡ self.old.index }
        ensures all { IfOk result (λ _. (text : List ℕ) (events : List Event_spec) →
            HasRead text events self.old → HasReadAll text events self.new) }
        ensures fault { IfErr result (λ fault. (text : List ℕ) (events : List Event_spec) →
            HasRead text events self.old → IsFault (names_of self.old) text fault) }
    {
        while self.next()?.is_some() {}
        Ok(())
    }
}
