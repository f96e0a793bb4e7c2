//! The lines of a text, and their words.

ghost use Rattle.std.specs.Prelude.{◌≡◌, ◌≤◌, ◌<◌, ◌+◌, ◌==◌, [], ◌∷◌, length, IfSome};
ghost use Rattle.std.specs.List.{slice_split};
ghost use Rattle.std.specs.Option.{option_map_or};
ghost use Rattle.message_text.specs.Lines.{has_return, is_ended, return_place};
ghost use Rattle.message_text.specs.Shown.{line};

/// What stands before the first byte of this value, and what stands behind it, if there is one.
pub fn cut(bytes: &[u8], stop: u8) -> (&[u8], Option<&[u8]>)
    ensures pieces { slice_split (λ b. b == stop) bytes.now ≡
        result.0.now ∷ option_map_or (λ rest. slice_split (λ b. b == stop) rest.now) result.1 [] }
    ensures within { length result.0.now ≤ length bytes.now }
    ensures size { IfSome result.1 (λ rest.
        length bytes.now ≡ length result.0.now + 1 + length rest.now) }
{
    for at in 0..bytes.len() {
        if bytes[at] == stop {
            return (&bytes[..at], Some(&bytes[at + 1..]));
        }
    }
    (bytes, None)
}

/// The line of this number, from 1, of a text that is cut at each LF. Empty where there is none.
pub fn line(text: &[u8], number: usize) -> &[u8]
    ensures { result.now ≡ line text.now number }
{
    if number == 0 {
        return &[];
    }
    let mut left = text;
    for _before in 0..number - 1 {
        match cut(left, b'\n').1 {
            None => return &[],
            Some(rest) => left = rest,
        }
    }
    cut(left, b'\n').0
}

/// Whether an LF ends the line of this number, from 1.
pub fn is_ended(text: &[u8], number: usize) -> bool
    ensures { result ≡ is_ended text.now number }
{
    number <= text.iter().filter(|byte| **byte == b'\n').count()
}

/// Whether a CR stands in a line.
pub fn has_return(line: &[u8]) -> bool
    ensures { result ≡ has_return line.now }
{
    line.iter().any(|byte| *byte == b'\r')
}

/// The place of the first CR of a line, from 0.
pub fn return_place(line: &[u8]) -> Option<usize>
    ensures place { result ≡ return_place line.now }
    ensures within { IfSome result (λ place. place < length line.now) }
{
    line.iter().position(|byte| *byte == b'\r')
}
