//! Files and output, as traits; in memory, and those of the system.
//!
//! The traits `Files` and `Sink` say what each call does to the bytes, where these are told, and
//! that a failure is counted: a call answers Failed only where the count of faults rose. So
//! whatever stands above can tell its own answers from those of the outside. Files and a sink in
//! memory fail as they are told, or never.
//!
//! `Buffered` lets pieces wait before they go to any sink below, and loses none: a write that fails
//! is answered by the put, or the `finish`, that made it, so the caller finishes at the end.
//! `RealFiles` and `RealSink` are the trusted edge: they promise nothing of content.
#![tactic(auto)]

mod buffered;
mod mem_sink;
mod memory;
mod outside;
mod real;
mod sure;

pub use buffered::Buffered;
pub use mem_sink::MemorySink;
pub use memory::MemoryFiles;
pub use outside::{Files, ReadFault, Sink, SinkFailed, WriteFault};
pub use real::{RealFiles, RealSink};
pub use sure::{SureFiles, SureSink};
