//! A place in a line.

ghost use Rattle.std.specs.Prelude.{◌<◌, ◌^◌, length};

/// A place in a line: the text from there on, how many bytes of the text were left where the line
/// begins, and whether all before the place in the line is in its range. The text has fewer than
/// 2^32 bytes.
#[derive(Clone, Copy)]
pub struct LineCursor<'a> {
    pub rest: &'a [u8],
    pub start: usize,
    pub is_fine: bool,
    ghost short: { length rest.now < 2 ^ 32 },
}
