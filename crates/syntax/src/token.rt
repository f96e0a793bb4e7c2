//! Tokens, and lists of them.

ghost use Rattle.std.specs.Prelude.{◌≡◌, length, IsTrue, ◌↔◌, []};

use syntax_tree::{List, Place};

/// What a token is. The bytes of a name are the token's slice of the text.
#[derive(Clone, Copy)]
pub enum TokenKind {
    /// An identifier that is no keyword.
    Ident,
    /// The keyword at this place of the list of keywords, from 0; `keyword` names the places.
    Keyword { at: u8 },
    /// A decimal literal, at most 2147483647.
    Literal { value: u32 },
    /// The sign at this place of the list of signs, from 0; `sign` names the places.
    Sign { at: u8 },
}

/// A token: its kind, its first byte's offset in the text, its bytes' count, and the line and the
/// byte of that line, both from 1, where it begins.
#[derive(Clone, Copy)]
pub struct Token {
    pub kind: TokenKind,
    pub start: u32,
    pub len: u32,
    pub line: u32,
    pub col: u32,
}

/// The tokens of a text in order, and the place one past the text's last byte.
#[derive(Drop)]
pub struct Tokens {
    list: List<Token>,
    end: Place,
}

impl Tokens {
    /// These tokens, of a text that ends at this place.
    pub(crate) fn new(list: List<Token>, end: Place) -> Tokens
        ensures list { result.list ≡ list }
        ensures end { result.end ≡ end }
    {
        Tokens { list, end }
    }

    /// The tokens, in the text's order.
    pub fn as_slice(&self) -> &[Token]
        ensures { result.now ≡ self.now.list }
    {
        self.list.as_slice()
    }

    pub fn len(&self) -> usize
        ensures { result ≡ length self.now.list }
    {
        self.list.len()
    }

    pub fn is_empty(&self) -> bool
        ensures { IsTrue result ↔ (self.now.list ≡ []) }
    {
        self.list.is_empty()
    }

    /// The line and the byte of that line, both from 1, one past the last byte of the text.
    pub fn end(&self) -> (u32, u32)
        ensures line { result.0 ≡ self.now.end.line }
        ensures col { result.1 ≡ self.now.end.col }
    {
        (self.end.line, self.end.col)
    }
}

/// The places of the keywords in their list.
pub mod keyword {
    pub const PROGRAM: u8 = 0;

    pub const END: u8 = 1;

    pub const CONST: u8 = 2;

    pub const DEVICE: u8 = 3;

    pub const IN: u8 = 4;

    pub const OUT: u8 = 5;

    pub const EVENT: u8 = 6;

    pub const MONITOR: u8 = 7;

    pub const CONDITION: u8 = 8;

    pub const ENTRY: u8 = 9;

    pub const PROCEDURE: u8 = 10;

    pub const FUNCTION: u8 = 11;

    pub const RETURNS: u8 = 12;

    pub const RETURN: u8 = 13;

    pub const PROCESS: u8 = 14;

    pub const PERIODIC: u8 = 15;

    pub const AT_EVENT: u8 = 16;

    pub const FRAME: u8 = 17;

    pub const FIRST: u8 = 18;

    pub const ACTIVATION: u8 = 19;

    pub const AT_TIME: u8 = 20;

    pub const VAR: u8 = 21;

    pub const INT: u8 = 22;

    pub const BOOLEAN: u8 = 23;

    pub const ARRAY: u8 = 24;

    pub const OF: u8 = 25;

    pub const BEGIN: u8 = 26;

    pub const HANDLER: u8 = 27;

    pub const IF: u8 = 28;

    pub const THEN: u8 = 29;

    pub const ELSE: u8 = 30;

    pub const FOR: u8 = 31;

    pub const DO: u8 = 32;

    pub const EXIT: u8 = 33;

    pub const WHEN: u8 = 34;

    pub const PUT: u8 = 35;

    pub const GET: u8 = 36;

    pub const WAIT: u8 = 37;

    pub const NO_LONGER_THAN: u8 = 38;

    pub const SIGNAL: u8 = 39;

    pub const BROADCAST: u8 = 40;

    pub const EMPTY: u8 = 41;

    pub const EXCEPT: u8 = 42;

    pub const ASSERT: u8 = 43;

    pub const AND: u8 = 44;

    pub const OR: u8 = 45;

    pub const NOT: u8 = 46;

    pub const DIV: u8 = 47;

    pub const MOD: u8 = 48;

    pub const TRUE: u8 = 49;

    pub const FALSE: u8 = 50;
}

/// The places of the signs in their list.
pub mod sign {
    /// `:=`
    pub const ASSIGN: u8 = 0;
    /// `..`
    pub const RANGE: u8 = 1;
    /// `.`
    pub const DOT: u8 = 2;
    /// `:`
    pub const COLON: u8 = 3;
    /// `,`
    pub const COMMA: u8 = 4;
    /// `(`
    pub const LEFT_PAREN: u8 = 5;
    /// `)`
    pub const RIGHT_PAREN: u8 = 6;
    /// `[`
    pub const LEFT_BRACKET: u8 = 7;
    /// `]`
    pub const RIGHT_BRACKET: u8 = 8;
    /// `+`
    pub const PLUS: u8 = 9;
    /// `-`
    pub const MINUS: u8 = 10;
    /// `*`
    pub const TIMES: u8 = 11;
    /// `=`
    pub const EQUAL: u8 = 12;
    /// `<>`
    pub const UNEQUAL: u8 = 13;
    /// `<`
    pub const LESS: u8 = 14;
    /// `<=`
    pub const LESS_EQUAL: u8 = 15;
    /// `>`
    pub const GREATER: u8 = 16;
    /// `>=`
    pub const GREATER_EQUAL: u8 = 17;
}
