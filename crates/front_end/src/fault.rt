//! Why a text was refused.

use out_of_memory::OutOfMemory;
use static_rule::rule;
use syntax::LexFault;
use syntax_parser::SyntaxFault;
use syntax_tree::Place;
use thiserror::Error;

/// Why a text was refused. A fault of the text prints as its number and its place.
#[derive(Debug, Drop, Error)]
pub enum SourceFault {
    /// A fault of the text. 1: a byte that begins no blank, no comment and no token; 2: a literal
    /// above 2147483647; 3: an identifier of more than 63 bytes; 4: more than 1,048,576 bytes, at
    /// the first line and byte; 10: tokens that are no program; 11: a token that opens level 65.
    #[error("E{number} {}:{}", .place.line, .place.col)]
    Fault { number: u8, place: Place },
    /// There was not enough memory.
    #[error("out of memory")]
    Memory(OutOfMemory),
}

/// Where a fault of the whole text stands: the first line and byte.
const START: Place = Place { line: 1, col: 1 };

impl From<LexFault> for SourceFault {
    ghost use Rattle.std.specs.Prelude.{◌≡◌};
    ghost use Rattle.front_end.specs.Source.{lexical};

    ghost from_gives = { λ fault made. made ≡ lexical fault };

    fn from(fault: LexFault) -> Self {
        match fault {
            LexFault::Byte { line, col } => SourceFault::Fault {
                number: rule::BAD_BYTE,
                place: Place { line, col },
            },
            LexFault::Literal { line, col } => SourceFault::Fault {
                number: rule::LARGE_LITERAL,
                place: Place { line, col },
            },
            LexFault::Ident { line, col } => SourceFault::Fault {
                number: rule::LONG_NAME,
                place: Place { line, col },
            },
            LexFault::Long => SourceFault::Fault {
                number: rule::LONG_TEXT,
                place: START,
            },
            LexFault::Memory(error) => SourceFault::Memory(error),
        }
    }
}

impl From<SyntaxFault> for SourceFault {
    ghost use Rattle.std.specs.Prelude.{◌≡◌};
    ghost use Rattle.front_end.specs.Source.{syntactic};

    ghost from_gives = { λ fault made. made ≡ syntactic fault };

    fn from(fault: SyntaxFault) -> Self {
        match fault {
            SyntaxFault::Syntax(place) => SourceFault::Fault {
                number: rule::SYNTAX,
                place,
            },
            SyntaxFault::Nesting(place) => SourceFault::Fault {
                number: rule::NESTING,
                place,
            },
            SyntaxFault::Memory(error) => SourceFault::Memory(error),
        }
    }
}
