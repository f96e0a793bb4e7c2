//! The calls that reach the system.

use outside::{
    Buffered, Files, MemorySink, ReadFault, RealFiles, RealSink, Sink, SinkFailed, WriteFault,
};
use std::alloc::Global;
use std::test::Fail;
use std::{fs, rt};

fn put_two<S: Sink>(out: &mut S) -> Result<(), SinkFailed> {
    out.put(b"one ")?;
    out.put(b"two\n")
}

/// What waits was written; now a line is put to what is below.
fn put_third<S: Sink>(written: Result<(), SinkFailed>, sink: &mut S) -> Result<(), SinkFailed> {
    written?;
    sink.put(b"three\n")
}

fn finish<S: Sink + Drop>(out: Buffered<S>) -> Result<(), SinkFailed> {
    let (written, mut sink) = out.finish();
    put_third(written, &mut sink)
}

fn put_three<S: Sink + Drop>(mut out: Buffered<S>) -> Result<(), SinkFailed> {
    put_two(&mut out)?;
    finish(out)
}

#[test]
fn puts_wait_and_are_written(rt: HostRuntime) -> Result<(), SinkFailed> {
    put_three(Buffered::new(rt.alloc(), RealSink::new(&rt)))
}

fn has_nothing(sink: &MemorySink) -> Result<(), Fail> {
    if sink.bytes().is_empty() {
        return Ok(());
    }
    Err(Fail::new("what waits is below"))
}

/// What is put behind this sink waits.
fn waits(alloc: Global, sink: MemorySink) -> Result<(), Fail> {
    let mut out = Buffered::new(alloc, sink);
    out.put(b"waits")?;
    has_nothing(&out.into_sink())
}

#[test]
fn what_waits_is_not_below(rt: HostRuntime) -> Result<(), Fail> {
    let sink = MemorySink::new(rt.alloc(), 10, Vec::new(rt.alloc()))?;
    waits(rt.alloc(), sink)
}

const NAME: &str = "rte_stdout.tmp";

fn holds(read: Result<Vec<u8>, ReadFault>, bytes: &[u8]) -> Result<(), Fail> {
    match read {
        Ok(found) if found.as_slice() == bytes => Ok(()),
        Ok(_) => Err(Fail::new("the file holds other bytes")),
        Err(fault) => Err(Fail::from(fault)),
    }
}

fn is_refused(read: Result<Vec<u8>, ReadFault>, want: ReadFault) -> Result<(), Fail> {
    match read {
        Ok(_) => Err(Fail::new("the file is read")),
        Err(fault) if fault == want => Ok(()),
        Err(fault) => Err(Fail::from(fault)),
    }
}

/// A file that is written is read again, unless it is longer than what is asked for.
fn keeps<F: Files>(files: &mut F) -> Result<(), Fail> {
    files.write(NAME, b"kept")?;
    holds(files.read(NAME, 4), b"kept")?;
    is_refused(files.read(NAME, 3), ReadFault::Long)
}

fn is_unwritten(written: Result<(), WriteFault>) -> Result<(), Fail> {
    match written {
        Ok(()) => Err(Fail::new("a file without a name is written")),
        Err(WriteFault::Failed) => Ok(()),
        Err(fault) => Err(Fail::from(fault)),
    }
}

/// A file that is not there is not read, and one without a name is not written.
fn fails<F: Files>(files: &mut F) -> Result<(), Fail> {
    is_refused(files.read(NAME, 4), ReadFault::Failed)?;
    is_unwritten(files.write("", b"kept"))
}

fn keeps_until_removed<R: rt::Files>(rt: &R, files: &mut RealFiles<'_, R>) -> Result<(), Fail> {
    keeps(files)?;
    fs::remove_file(rt, NAME)?;
    fails(files)
}

#[test]
fn files_are_written_and_read(rt: HostRuntime) -> Result<(), Fail> {
    let mut files = RealFiles::new(rt.alloc(), &rt);
    keeps_until_removed(&rt, &mut files)
}
