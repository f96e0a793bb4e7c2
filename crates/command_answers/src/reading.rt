//! Reading files.

ghost use Rattle.std.specs.Prelude.{◌∷◌, [], IfErr, IfOk, IsSomeAnd, OnOk};
ghost use Rattle.std.specs.Bool.{OnTrue};
ghost use Rattle.outside.specs.Outside.{IsAdded};
ghost use Rattle.command_answers.specs.Contents.{IsContent};
ghost use Rattle.command_answers.specs.Prepared.{IsReadError};
ghost use Rattle.command_answers.specs.OnlyReads.{OnlyReads};
ghost use Rattle.command_answers.specs.Tried.{HasTried, error_status};

use crate::prepare_error::PrepareError;
use outside::{Files, ReadFault};

/// How many bytes a program text has at most.
pub const LONGEST_PROGRAM: usize = 1_048_576;

/// How many bytes a script has at most.
pub const LONGEST_SCRIPT: usize = 16_777_216;

/// How many bytes an image has at most.
pub const LONGEST_IMAGE: usize = 8_388_608;

/// How many bytes the text of an image has at most.
pub const LONGEST_IMAGE_TEXT: usize = 8_388_608;

/// How many bytes a log has at most.
pub const LONGEST_LOG: usize = 67_108_864;

/// What a file holds.
#[derive(Drop)]
pub enum Content {
    /// All its bytes.
    Bytes(Vec<u8>),
    /// More bytes than were asked for.
    TooLong,
}

/// What the file of a name holds: its bytes, where they are at most `most`. It is read once.
///
/// # Errors
///
/// `Unread`, with the name, only where its count of faults rose. `Memory` where there is not enough
/// memory.
#[tactic(auto, using(crate::proofs::Trying::tried_last, crate::proofs::Trying::tried_at_most))]
pub fn read<'a, F: Files>(
    files: &mut F,
    name: &'a str,
    most: usize,
) -> Result<Content, PrepareError<'a>>
    ensures content { IfOk result (λ content.
        OnTrue F.tells (IsSomeAnd ((F.state files.old).held name.now) (IsContent most content))) }
    ensures failed { IfErr result (IsReadError name.now (F.state files.old) (F.state files.new)) }
    ensures only_reads { OnlyReads (F.state files.old) (F.state files.new) }
    ensures read { OnOk result
        (IsAdded (F.state files.old).reads (F.state files.new).reads name.now) }
    ensures tried { IfErr result (λ why. HasTried (name.now ∷ [])
        (F.state files.old).reads (F.state files.new).reads (error_status why)) }
{
    match files.read(name, most) {
        Ok(bytes) => Ok(Content::Bytes(bytes)),
        Err(ReadFault::Long) => Ok(Content::TooLong),
        Err(ReadFault::Failed) => Err(PrepareError::Unread(name)),
        Err(ReadFault::Memory(error)) => Err(PrepareError::Memory(error)),
    }
}
