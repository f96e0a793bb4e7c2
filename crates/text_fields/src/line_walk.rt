//! Going on in a line.

ghost use Rattle.std.specs.Prelude.{◌≡◌, ◌<◌, ◌^◌, length};
ghost use Rattle.text_fields.specs.Front.{Gives, front, begins, line_start, noted, skip as skip_read, end_read};

use crate::fault::{FieldError, FieldFault};
use crate::line_cursor::LineCursor;
use crate::refusal;

impl<'a> LineCursor<'a> {
    /// The beginning of a line.
    pub fn begin(rest: &'a [u8]) -> LineCursor<'a>
        requires { length rest.now < 2 ^ 32 }
        ensures { front result ≡ line_start rest.now }
    {
        LineCursor {
            rest,
            start: rest.len(),
            is_fine: true,
        }
    }
}

/// Whether the bytes begin with the word.
pub fn begins_with(bytes: &[u8], word: &[u8]) -> bool
    ensures { result ≡ begins word.now bytes.now }
{
    if bytes.len() < word.len() {
        return false;
    }
    let (front, _rest) = bytes.split_at(word.len());
    front == word
}

/// The place after the word, which must stand there.
#[tactic(auto, unfolding(crate::specs::Front::skip))]
pub fn skip<'a>(at: LineCursor<'a>, word: &[u8]) -> Result<LineCursor<'a>, FieldError>
    ensures { Gives front result (skip_read word.now (front at.entry)) }
{
    if !begins_with(at.rest, word) {
        return Err(FieldError::Fault(FieldFault {
            number: refusal::FORM,
            left: at.start,
        }));
    }
    let (_word, rest) = at.rest.split_at(word.len());
    Ok(LineCursor {
        rest,
        start: at.start,
        is_fine: at.is_fine,
    })
}

/// The place, with a note whether something before it is in its range.
pub fn note(at: LineCursor<'_>, holds: bool) -> LineCursor<'_>
    ensures { front result ≡ noted (front at.entry) holds }
{
    LineCursor {
        rest: at.rest,
        start: at.start,
        is_fine: at.is_fine && holds,
    }
}

/// The beginning of the next line; this one must end here, and all in it be in its range.
#[tactic(auto, unfolding(crate::specs::Front::end_read))]
pub fn end_line(at: LineCursor<'_>) -> Result<LineCursor<'_>, FieldError>
    ensures { Gives front result (end_read (front at.entry)) }
{
    let at = skip(at, b"\n")?;
    if !at.is_fine {
        return Err(FieldError::Fault(FieldFault {
            number: refusal::RANGE,
            left: at.start,
        }));
    }
    Ok(LineCursor {
        rest: at.rest,
        start: at.rest.len(),
        is_fine: true,
    })
}
