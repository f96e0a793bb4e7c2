//! Processes.

ghost use Rattle.std.specs.Prelude.{◌≡◌, ◌≢◌, [], IsOk, MatchOption};
ghost use Rattle.image_format.specs.Gives.{GivesOrFault};
ghost use Rattle.image_bytes.specs.Fields.{process_fields, release_fields};
ghost use Rattle.image_bytes.specs.Standing.{IsRead, maybe_tree_in, numbers_in, process_in};
ghost use Rattle.image_format.specs.Stands.{tree_in};

use crate::counted::numbers_at;
use crate::numbers::HandlerNumbers;
use crate::reference::ProcessRef;
use crate::routine::{five_at, kept_tree_at};
use image_format::{ByteFault, SegBytes, u8_at, u16_at, u32_at};

impl<'a> ProcessRef<'a> {
    /// The numbers that its handler takes.
    pub fn numbers(&self) -> HandlerNumbers<'a>
        ensures { numbers_in result ≡ (process_in self.now).numbers }
    {
        self.numbers
    }

    /// The tree of its body.
    pub fn body(&self) -> SegBytes<'a>
        ensures { tree_in result ≡ (process_in self.now).body }
    {
        match kept_tree_at(self.trees) {
            Ok((body, _)) => body,
            Err(_) => unreachable!(),
        }
    }

    /// The tree of its handler; none exactly where there are no numbers that it takes.
    pub fn handler(&self) -> Option<SegBytes<'a>>
        ensures tree { maybe_tree_in result ≡ (process_in self.now).handler_tree }
        ensures none { MatchOption result ((process_in self.now).numbers ≡ [])
            (λ tree. (process_in self.now).numbers ≢ []) }
    {
        if self.numbers.is_empty() {
            return None;
        }
        let Ok((_, rest)) = kept_tree_at(self.trees) else {
            unreachable!()
        };
        match kept_tree_at(rest) {
            Ok((tree, _)) => Some(tree),
            Err(_) => unreachable!(),
        }
    }
}

/// When a process is released, within what it has to end, and its rank.
#[derive(Clone, Copy)]
struct Release {
    kind: u8,
    frame: u32,
    deadline: u32,
    first: u32,
    event: u16,
    rank: u16,
}

fn release_at(bytes: &[u8]) -> Result<(Release, &[u8]), ByteFault>
    ensures { GivesOrFault (λ x. (
      (
        x.0.kind,
        (
          x.0.frame,
          (x.0.deadline, (x.0.first, (x.0.event, x.0.rank))),
        ),
      ),
      x.1.now,
    )) result (release_fields.read bytes.now) }
{
    let (kind, rest) = u8_at(bytes)?;
    let (frame, rest) = u32_at(rest)?;
    let (deadline, rest) = u32_at(rest)?;
    let (first, rest) = u32_at(rest)?;
    let (event, rest) = u16_at(rest)?;
    let (rank, rest) = u16_at(rest)?;
    Ok((
        Release {
            kind,
            frame,
            deadline,
            first,
            event,
            rank,
        },
        rest,
    ))
}

/// The process that the bytes begin with, after its name. Its trees are not gone over.
pub fn process_at(bytes: &[u8]) -> ProcessRef<'_>
    requires { IsOk (process_fields.read bytes.now) }
    ensures { IsRead process_fields bytes.now (process_in result) }
{
    let Ok((release, rest)) = release_at(bytes) else {
        unreachable!()
    };
    let Ok((time, rest)) = five_at(rest) else {
        unreachable!()
    };
    let Ok((room, rest)) = five_at(rest) else {
        unreachable!()
    };
    let Ok((numbers, trees)) = numbers_at(rest) else {
        unreachable!()
    };
    ProcessRef {
        kind: release.kind,
        frame: release.frame,
        deadline: release.deadline,
        first: release.first,
        event: release.event,
        rank: release.rank,
        run: time.first,
        susp: time.second,
        waits: time.third,
        block: time.fourth,
        bound: time.fifth,
        words: room.first,
        stack: room.second,
        locals: room.third,
        start: room.fourth,
        handler: room.fifth,
        numbers,
        trees,
    }
}
