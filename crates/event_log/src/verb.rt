//! What a process does, by the first word.

ghost use Rattle.std.specs.Prelude.{◌≡◌, ◌≢◌, IfSome, IfNone};
ghost use Rattle.event_log.specs.Parts.{verb_text};
ghost use Rattle.event_log.specs.declared.verb.Verb.{Verb};

use text_fields::is_same;

/// The first word of what a process does.
#[derive(Clone, Copy)]
pub enum Verb {
    Release,
    TimeOut,
    Get,
    Put,
    Enter,
    Leave,
    Wait,
    Signal,
    Broadcast,
    Empty,
    Raise,
    End,
}

/// The verb that the word is. Those that stand most often in a log are tried first.
pub fn verb_named(word: &[u8]) -> Option<Verb>
    ensures found { IfSome result (λ verb. word.now ≡ verb_text verb) }
    ensures none { IfNone result ((verb : Verb) → word.now ≢ verb_text verb) }
{
    if is_same(word, b"release") {
        return Some(Verb::Release);
    }
    if is_same(word, b"end") {
        return Some(Verb::End);
    }
    if is_same(word, b"put") {
        return Some(Verb::Put);
    }
    if is_same(word, b"enter") {
        return Some(Verb::Enter);
    }
    if is_same(word, b"leave") {
        return Some(Verb::Leave);
    }
    if is_same(word, b"get") {
        return Some(Verb::Get);
    }
    if is_same(word, b"wait") {
        return Some(Verb::Wait);
    }
    if is_same(word, b"signal") {
        return Some(Verb::Signal);
    }
    if is_same(word, b"timeout") {
        return Some(Verb::TimeOut);
    }
    if is_same(word, b"broadcast") {
        return Some(Verb::Broadcast);
    }
    if is_same(word, b"empty") {
        return Some(Verb::Empty);
    }
    if is_same(word, b"raise") {
        return Some(Verb::Raise);
    }
    None
}
