//! The numbers of the rules of the language, as refusals tell them behind an `E`.

/// A byte that begins no word.
pub const BAD_BYTE: u8 = 1;
/// A literal above 2147483647.
pub const LARGE_LITERAL: u8 = 2;
/// A name of more than 63 letters.
pub const LONG_NAME: u8 = 3;
/// A text of more than 1,048,576 bytes.
pub const LONG_TEXT: u8 = 4;
/// The words are no program.
pub const SYNTAX: u8 = 10;
/// A word opens level 65 of nesting.
pub const NESTING: u8 = 11;
/// A name is declared nowhere in reach.
pub const UNDECLARED: u8 = 20;
/// A name is declared where it is in reach already.
pub const REDECLARED: u8 = 21;
/// A name is of the wrong kind for its use.
pub const WRONG_KIND: u8 = 22;
/// A closing name differs from the opening one.
pub const WRONG_CLOSING: u8 = 23;
/// Types, or numbers of arguments, do not agree.
pub const WRONG_TYPE: u8 = 30;
/// A routine reaches itself by calls.
pub const RECURSION: u8 = 31;
/// A lower bound is above its upper bound, or a loop goes up to 2147483647.
pub const CROSSED_BOUNDS: u8 = 32;
/// A loop has more than 1,000,000 turns.
pub const LONG_LOOP: u8 = 33;
/// A statement or a call stands where it may not.
pub const MISPLACED: u8 = 34;
/// A handler reaches a `wait`, or lists a number twice.
pub const WRONG_HANDLER: u8 = 35;
/// A frame, a deadline or a first activation is out of its range.
pub const WRONG_ACTIVATION: u8 = 36;
/// An event is not used by exactly one process.
pub const EVENT_USE: u8 = 37;
/// A `get` from an out device, or a `put` to an in device.
pub const WRONG_DIRECTION: u8 = 38;
/// A number of `except`, of a `wait` or of a handler is out of its range.
pub const WRONG_NUMBER: u8 = 39;
/// There is no process, or one process, monitor, device or event above 64.
pub const COUNT: u8 = 40;
/// More than 256 conditions.
pub const CONDITION_COUNT: u8 = 41;
/// More than 512 routines and entries.
pub const ROUTINE_COUNT: u8 = 42;
/// More than 1,048,576 words of process and monitor variables.
pub const VARIABLE_WORDS: u8 = 43;
/// An array is longer than 65,536.
pub const LONG_ARRAY: u8 = 44;
/// A limit of a `wait` is out of its range.
pub const WAIT_LIMIT: u8 = 45;
/// The program has more than 65,535 instructions.
pub const LONG_CODE: u8 = 46;
/// The stack of a process has more than 4,096 words, or a routine takes more by itself.
pub const LARGE_STACK: u8 = 47;
/// A program that is to run under earliest deadline first has a `wait` statement.
pub const WAITS: u8 = 48;
