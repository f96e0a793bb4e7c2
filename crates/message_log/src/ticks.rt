//! The tick of a line.

ghost use Rattle.std.specs.Prelude.{◌≡◌};
ghost use Rattle.std.specs.List.{list_all};
ghost use Rattle.text_fields.specs.LineFields.{is_digit};
ghost use Rattle.message_log.specs.Log.{is_tick};

use text_fields::{is_digit, is_numeral};

/// Whether each byte is a digit.
fn are_digits(word: &[u8]) -> bool
    ensures { result ≡ list_all is_digit word.now }
{
    word.iter().all(|byte| is_digit(*byte))
}

/// Whether the word is a number from 0 to 999999999.
#[tactic(auto, unfolding(crate::specs::Log::is_tick))]
pub(crate) fn is_tick(word: &[u8]) -> bool
    ensures { result ≡ is_tick word.now }
{
    are_digits(word) && is_numeral(word) && word.len() <= 9
}
