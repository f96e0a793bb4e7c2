//! Words in the places of ticks.

ghost use Rattle.std.specs.Prelude.{◌≡◌};
ghost use Rattle.std.specs.List.{list_all};
ghost use Rattle.syntax.specs.Spellings.{is_digit as digit_test, is_number as number_test};
ghost use Rattle.table_format.specs.Faults.{is_numeral as numeral_test};
ghost use Rattle.message_table.specs.Form.{begins_with as begins_test, behind_minus as bytes_behind};
ghost use Rattle.message_table.specs.Form.{numeral_fault as fault_of};
ghost use Rattle.message_table.specs.Ticks.{ticks as ticks_of};

use crate::fault::NumeralFault;

/// For each number of ticks above 1,000,000,000.
const OVER: u64 = 1_000_000_001;

/// Whether all bytes are digits.
fn are_digits(word: &[u8]) -> bool
    ensures { result ≡ list_all digit_test word.now }
{
    word.iter().all(|byte| byte.is_ascii_digit())
}

/// Whether a word is one digit or more.
fn is_number(word: &[u8]) -> bool
    ensures { result ≡ number_test word.now }
{
    !word.is_empty() && are_digits(word)
}

/// Whether a word is decimal digits without leading zeros.
pub(crate) fn is_numeral(word: &[u8]) -> bool
    ensures { result ≡ numeral_test word.now }
{
    is_number(word) && text_fields::is_numeral(word)
}

/// Whether the bytes begin with this one.
pub(crate) fn begins_with(bytes: &[u8], byte: u8) -> bool
    ensures { result ≡ begins_test byte bytes.now }
{
    match bytes {
        [] => false,
        [first, ..] => *first == byte,
    }
}

/// The bytes behind a minus, where one stands first.
fn behind_minus(word: &[u8]) -> &[u8]
    ensures { result.now ≡ bytes_behind word.now }
{
    match word {
        [b'-', digits @ ..] => digits,
        _ => word,
    }
}

/// Why a word is no numeral.
pub(crate) fn numeral_fault(word: &[u8]) -> NumeralFault
    ensures { result ≡ fault_of word.now }
{
    if begins_with(word, b'+') {
        return NumeralFault::Plus;
    }
    if !is_number(behind_minus(word)) {
        return NumeralFault::NoNumber;
    }
    if begins_with(word, b'-') {
        return NumeralFault::Minus;
    }
    NumeralFault::LeadingZero
}

/// The number that a word spells, and 1,000,000,001 for each larger one.
pub(crate) fn ticks(word: &[u8]) -> u64
    ensures { result ≡ ticks_of word.now }
{
    let mut ticks = 0;
    for digit in word {
        ticks = (10 * ticks + u64::from(digit.saturating_sub(b'0'))).min(OVER);
    }
    ticks
}
