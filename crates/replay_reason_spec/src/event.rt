//! Events of a program that is followed, which no log has yet.

/// What a process does, or what befalls it: an act of a log, with numbers of any size.
#[derive(Clone, Copy)]
pub enum SourceAct {
    Release,
    TimeOut { cond: usize, number: u32 },
    Get { dev: usize, value: i64 },
    Put { dev: usize, value: i64 },
    Enter { mon: usize },
    Leave { mon: usize },
    Wait { cond: usize },
    Signal { cond: usize, woken: Option<usize> },
    Broadcast { cond: usize, count: usize },
    Empty { cond: usize, answer: bool },
    Raise { number: u32 },
    End,
}

/// An act of a process at a tick.
#[derive(Clone, Copy)]
pub struct SourceEvent {
    pub tick: u64,
    pub process: usize,
    pub act: SourceAct,
}
