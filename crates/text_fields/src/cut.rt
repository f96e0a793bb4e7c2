//! The bytes before and after a separator.

ghost use Rattle.std.specs.Prelude.{◌≡◌, ◌≢◌, ◌≤◌, true, false, length, IfSome, IfNone};
ghost use Rattle.std.specs.List.{prefix_len};
ghost use Rattle.text_fields.specs.Fields.{is_other, IsCutAt, IsWord, Lacks};

/// Bytes that were cut at the first byte of some value, which stands in neither part's front.
#[derive(Clone, Copy)]
pub struct Cut<'a> {
    pub before: &'a [u8],
    pub after: &'a [u8],
}

/// How many bytes stand before the first byte of this value, or before the end.
fn front_len(bytes: &[u8], stop: u8) -> usize
    ensures value { result ≡ prefix_len (is_other stop) bytes.now }
    ensures within { result ≤ length bytes.now }
{
    bytes.iter().take_while(|byte| **byte != stop).count()
}

/// The bytes before the first byte of this value and those after it; None where there is none.
pub fn cut_at(bytes: &[u8], stop: u8) -> Option<Cut<'_>>
    ensures found { IfSome result (λ cut. IsCutAt stop bytes.now cut.before.now cut.after.now) }
    ensures none { IfNone result (Lacks stop bytes.now) }
{
    let len = front_len(bytes, stop);
    if len == bytes.len() {
        return None;
    }
    Some(Cut {
        before: &bytes[..len],
        after: &bytes[len + 1..],
    })
}

/// Whether two words are the same.
pub fn is_same(word: &[u8], other: &[u8]) -> bool
    ensures yes { result ≡ true → word.now ≡ other.now }
    ensures no { result ≡ false → word.now ≢ other.now }
{
    word == other
}

/// Whether the bytes, none of which is LF, are a word.
pub fn is_word(bytes: &[u8]) -> bool
    requires { Lacks 10 bytes.now }
    ensures yes { result ≡ true → IsWord bytes.now }
    ensures no { result ≡ false → ¬ IsWord bytes.now }
{
    if bytes.is_empty() {
        return false;
    }
    match cut_at(bytes, b' ') {
        None => true,
        Some(_) => false,
    }
}
