//! Laws of logs. These functions do nothing; their contracts are the laws.

ghost use Rattle.event_log.specs.LogReading.{IsOneLog, TellsOneEvent};

/// A line is that of one event at most, and a text is the log of one list of events at most, where
/// the names are words, none of a process is a dash, and no two of a kind are the same.
pub fn one_log()
    ensures line { TellsOneEvent }
    ensures text { IsOneLog }
{}
