//! Decimal numbers.

ghost use Rattle.std.specs.Prelude.{◌≡◌, ◌≢◌, ◌≤◌, ◌<◌, ◌^◌, ℕ, ℤ, true, false, ◌∷◌, length, slice_index_or, decimal, IfSome, IfNone};
ghost use Rattle.std.specs.Int.{IsInRange};
ghost use Rattle.std.specs.Fmt.{signed_decimal};
ghost use Rattle.text_fields.specs.Fields.{Is32};

/// Whether a word of one byte or more begins with a zero that says nothing.
fn has_leading_zero(word: &[u8]) -> bool
    requires { 0 < length word.now }
    ensures yes { result ≡ true → (slice_index_or word.now 0 0 ≡ 48) × (1 < length word.now) }
    ensures no { result ≡ false → slice_index_or word.now 0 0 ≡ 48 → length word.now ≡ 1 }
{
    word[0] == b'0' && word.len() > 1
}

/// Whether the byte is a digit.
fn is_digit(byte: u8) -> bool
    ensures yes { result ≡ true → IsInRange 48 57 byte }
    ensures no { result ≡ false → ¬ IsInRange 48 57 byte }
{
    matches!(byte, b'0'..=b'9')
}

/// The number that the word spells, if it is at most `most`: decimal, without leading zeros. None
/// where the word spells no such number.
pub fn unsigned(word: &[u8], most: u64) -> Option<u64>
    requires { most < 2 ^ 32 }
    ensures found { IfSome result (λ n. word.now ≡ decimal n) }
    ensures small { IfSome result (λ n. n ≤ most) }
    ensures none { IfNone result ((n : ℕ) → n ≤ most → word.now ≢ decimal n) }
{
    if word.is_empty() {
        return None;
    }
    if has_leading_zero(word) {
        return None;
    }
    let mut value = 0;
    for digit in word {
        if !is_digit(*digit) {
            return None;
        }
        value = 10 * value + u64::from(*digit - b'0');
        if value > most {
            return None;
        }
    }
    Some(value)
}

/// The number below zero whose digits, behind `-`, these are. None where there is no such number
/// of 32 bits.
fn negative(digits: &[u8]) -> Option<i32>
    ensures found { IfSome result (λ z. 45 ∷ digits.now ≡ signed_decimal z) }
    ensures none { IfNone result ((z : ℤ) → Is32 z → 45 ∷ digits.now ≢ signed_decimal z) }
{
    match unsigned(digits, 2_147_483_648) {
        None => None,
        Some(0) => None,
        Some(size) => Some(-(size as i64) as i32),
    }
}

/// The number of 32 bits that the word spells: decimal, without leading zeros, and with `-` where
/// it is below zero. None where the word spells no such number.
pub fn signed(word: &[u8]) -> Option<i32>
    ensures found { IfSome result (λ z. word.now ≡ signed_decimal z) }
    ensures none { IfNone result ((z : ℤ) → Is32 z → word.now ≢ signed_decimal z) }
{
    if word.is_empty() {
        return None;
    }
    if word[0] == b'-' {
        return negative(&word[1..]);
    }
    match unsigned(word, 2_147_483_647) {
        None => None,
        Some(size) => Some(size as i32),
    }
}
