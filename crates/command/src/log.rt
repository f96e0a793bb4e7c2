//! The log of a run, in memory.

ghost use Rattle.std.specs.Prelude.{◌≡◌, ◌≤◌, Some, IfOk, IsSome};
ghost use Rattle.command_answers.specs.Acts.{CanRun, log_due};

use command_answers::PreparedRun;
use command_perform::Ready;
use out_of_memory::OutOfMemory;
use outside::{Sink, SinkFailed};
use std::alloc::Global;

/// A sink in memory, which grows with what it takes. A put fails only where memory is refused, and
/// that error is kept.
#[derive(Drop)]
struct Log {
    bytes: Vec<u8>,
    faults: u64,
    refused: Option<OutOfMemory>,
    ghost kept: { 1 ≤ faults → IsSome refused },
}

impl Sink for Log {
    ghost use Rattle.std.specs.Prelude.{Some};

    ghost state = { λ log. record { taken = Some log.bytes.items; faults = log.faults } };

    fn put(&mut self, piece: &[u8]) -> Result<(), SinkFailed> {
        match self.bytes.extend_from_slice(piece) {
            Ok(()) => Ok(()),
            Err(refused) => {
                self.refused = Some(OutOfMemory::from(refused));
                self.faults = self.faults.saturating_add(1);
                Err(SinkFailed { taken: 0 })
            }
        }
    }
}

/// The log of a run that the machine can make.
pub fn log_of(alloc: Global, run: &PreparedRun) -> Result<Vec<u8>, OutOfMemory>
    requires { CanRun run.now }
    ensures { IfOk result (λ bytes. bytes.items ≡ log_due (Some run.now)) }
{
    let mut ready = Ready::new(alloc, run)?;
    let mut log = Log {
        bytes: Vec::new(alloc),
        faults: 0,
        refused: None,
    };
    match ready.put_log(&mut log) {
        Ok(()) => Ok(log.bytes),
        Err(_) => match log.refused {
            Some(refused) => Err(refused),
            None => unreachable!(),
        },
    }
}
