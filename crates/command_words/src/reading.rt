//! Reading words.

ghost use Rattle.std.specs.Prelude.{◌≡◌, ◌↔◌, string_bytes, IfNone, IfSome, All, IsTrue};
ghost use Rattle.command_words.specs.Calls.{Call, Load};
ghost use Rattle.command_words.specs.Words.{is_word, IsCommand, IsMake, IsRequest, IsWord};

use crate::making::make;
use crate::request::Request;
use crate::rows::row;

/// Whether the word is not empty, and begins with no dash.
fn is_word(word: &String) -> bool
    ensures { result ≡ is_word (string_bytes word.now) }
{
    match word.as_bytes() {
        [] => false,
        [first, ..] => *first != b'-',
    }
}

/// Whether no word is empty or begins with a dash.
fn are_words(words: &[String]) -> bool
    ensures { IsTrue result ↔ All IsWord words.now }
{
    words.iter().all(is_word)
}

/// What the words ask for, spelled exactly:
///
/// - `go P I S`, `check P`, `compile P I`, `json P`, `slack P`, `why P` or `fit P`, each also with
///   an overhead K behind it, from 0 to 1000 in decimal and without leading zeros, and 0 where it is
///   left out;
/// - `print P`, `run I S`, `migrate I J`, `asm A I`, `dis I A` or `table F P`;
/// - `replay P S L` or `edf P S`;
/// - `watch I S T` or `watch I S @A`, with a tick T from 0 to 1,000,000,000 or an address A from 0 to
///   65534, in decimal and without leading zeros;
/// - `chart I S A B`, with ticks A from 0 to 999,999,999 and B from 1 to 1,000,000,000, A below B, in
///   decimal and without leading zeros;
/// - `make K N P S`, with a key K from 0 to 18446744073709551615 and a number N of processes from 1
///   to 64, in decimal and without leading zeros.
///
/// `None` exactly where they are in no row, or a word is empty or begins with `-`.
pub fn read_words(words: &[String]) -> Option<Request<'_>>
    ensures some { IfSome result (λ r. IsRequest words.now r) }
    ensures commands { IfNone result ((call : Call) → ¬ IsCommand words.now call) }
    ensures loads { IfNone result ((load : Load) → ¬ IsMake words.now load) }
{
    if !are_words(words) {
        return None;
    }
    if let Some(load) = make(words) {
        return Some(Request::Load(load));
    }
    row(words).map(Request::Command)
}
