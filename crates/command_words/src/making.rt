//! The row of `make`.

ghost use Rattle.std.specs.Prelude.{◌≡◌, ◌≢◌, ◌≤◌, ◌<◌, ◌^◌, ℕ, true, false, length, slice_index_or, decimal, IfNone, IfSome, All};
ghost use Rattle.std.specs.Int.{IsInRange};
ghost use Rattle.command_words.specs.Calls.{Load as Made};
ghost use Rattle.command_words.specs.Words.{IsMake, IsWord, load_of};

use crate::words_load::Load;
use text_fields::unsigned;

/// The greatest number of processes.
const MOST_PROCESSES: u64 = 64;

/// Whether a word of one byte or more begins with a zero that says nothing.
fn has_leading_zero(word: &[u8]) -> bool
    requires { 0 < length word.now }
    ensures yes { result ≡ true → (slice_index_or word.now 0 0 ≡ 48) × (1 < length word.now) }
    ensures no { result ≡ false → slice_index_or word.now 0 0 ≡ 48 → length word.now ≡ 1 }
{
    word[0] == b'0' && word.len() > 1
}

/// Whether the byte is a digit.
fn is_digit(byte: u8) -> bool
    ensures yes { result ≡ true → IsInRange 48 57 byte }
    ensures no { result ≡ false → ¬ IsInRange 48 57 byte }
{
    matches!(byte, b'0'..=b'9')
}

/// The number of 64 bits that the word spells: decimal, without leading zeros. None where the word
/// spells no such number.
fn key(word: &[u8]) -> Option<u64>
    ensures found { IfSome result (λ n. word.now ≡ decimal n) }
    ensures none { IfNone result ((n : ℕ) → n < 2 ^ 64 → word.now ≢ decimal n) }
{
    if word.is_empty() {
        return None;
    }
    if has_leading_zero(word) {
        return None;
    }
    let mut value = 0;
    for digit in word {
        if !is_digit(*digit) {
            return None;
        }
        let ones = u64::from(*digit - b'0');
        if value > (u64::MAX - ones) / 10 {
            return None;
        }
        value = 10 * value + ones;
    }
    Some(value)
}

/// The number of processes that the word spells, from 1 to 64: decimal, without leading zeros. None
/// where the word spells no such number.
fn count(word: &[u8]) -> Option<u32>
    ensures found { IfSome result (λ n. word.now ≡ decimal n) }
    ensures some { IfSome result (λ n. 1 ≤ n) }
    ensures few { IfSome result (λ n. n ≤ 64) }
    ensures none { IfNone result ((n : ℕ) → 1 ≤ n → n ≤ 64 → word.now ≢ decimal n) }
{
    let Some(count) = unsigned(word, MOST_PROCESSES) else {
        return None;
    };
    if count == 0 {
        return None;
    }
    Some(count as u32)
}

/// The load that these words ask for, none of which is empty or begins with a dash. None where they
/// are not the row of `make`.
pub fn make(words: &[String]) -> Option<Load<'_>>
    requires { All IsWord words.now }
    ensures some { IfSome result (λ l. IsMake words.now (load_of l)) }
    ensures none { IfNone result ((load : Made) → ¬ IsMake words.now load) }
{
    let [word, key_word, count_word, program, script] = words else {
        return None;
    };
    if word.as_str() != "make" {
        return None;
    }
    let Some(key) = key(key_word.as_bytes()) else {
        return None;
    };
    let Some(count) = count(count_word.as_bytes()) else {
        return None;
    };
    Some(Load {
        key,
        count,
        program: program.as_str(),
        script: script.as_str(),
    })
}
