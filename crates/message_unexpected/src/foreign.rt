//! Words of other languages.

ghost use Rattle.std.specs.Prelude.{◌≡◌, bytes_eq, find, map};
ghost use Rattle.std.specs.Option.{option_map_or};
ghost use Rattle.message_unexpected.specs.Foreign.{other_words, word_note};
ghost use Rattle.message_unexpected.specs.Seen.{foreign_of};

/// A word of another language, and what is said of it.
#[derive(Clone, Copy)]
pub struct Foreign {
    /// The word.
    word: &'static str,
    /// What can be done.
    note: &'static str,
}

/// Of a branch behind another one.
const OF_BRANCHES: &str = "write `else if .. then ..`; each `if` has its own `end if`";

/// Of loops.
const OF_LOOPS: &str = "a loop is `for i : 1 .. 9 do .. end for`; `exit when` leaves it";

/// Of input and output.
const OF_DEVICES: &str = "`put` gives a number to a device, `get` takes one";

/// Of leaving a loop.
const OF_LEAVING: &str = "`exit when` leaves a loop";

/// Of a choice among many.
const OF_CHOICES: &str = "write `if .. then .. else .. end if`";

/// Of types.
const OF_TYPES: &str = "the types are `int`, `boolean` and `1 .. 9`";

/// Words of other languages.
const OTHER_WORDS: [Foreign; 29] = [
    Foreign {
        word: "elsif",
        note: OF_BRANCHES,
    },
    Foreign {
        word: "elseif",
        note: OF_BRANCHES,
    },
    Foreign {
        word: "elif",
        note: OF_BRANCHES,
    },
    Foreign {
        word: "endif",
        note: "write `end if`",
    },
    Foreign {
        word: "endfor",
        note: "write `end for`",
    },
    Foreign {
        word: "endwhile",
        note: "write `end for`",
    },
    Foreign {
        word: "while",
        note: OF_LOOPS,
    },
    Foreign {
        word: "until",
        note: OF_LOOPS,
    },
    Foreign {
        word: "repeat",
        note: OF_LOOPS,
    },
    Foreign {
        word: "loop",
        note: OF_LOOPS,
    },
    Foreign {
        word: "print",
        note: OF_DEVICES,
    },
    Foreign {
        word: "printf",
        note: OF_DEVICES,
    },
    Foreign {
        word: "write",
        note: OF_DEVICES,
    },
    Foreign {
        word: "read",
        note: OF_DEVICES,
    },
    Foreign {
        word: "break",
        note: OF_LEAVING,
    },
    Foreign {
        word: "continue",
        note: OF_LEAVING,
    },
    Foreign {
        word: "switch",
        note: OF_CHOICES,
    },
    Foreign {
        word: "case",
        note: OF_CHOICES,
    },
    Foreign {
        word: "bool",
        note: OF_TYPES,
    },
    Foreign {
        word: "float",
        note: OF_TYPES,
    },
    Foreign {
        word: "double",
        note: OF_TYPES,
    },
    Foreign {
        word: "real",
        note: OF_TYPES,
    },
    Foreign {
        word: "char",
        note: OF_TYPES,
    },
    Foreign {
        word: "string",
        note: OF_TYPES,
    },
    Foreign {
        word: "void",
        note: OF_TYPES,
    },
    Foreign {
        word: "long",
        note: OF_TYPES,
    },
    Foreign {
        word: "short",
        note: OF_TYPES,
    },
    Foreign {
        word: "unsigned",
        note: OF_TYPES,
    },
    Foreign {
        word: "integer",
        note: OF_TYPES,
    },
];

/// The words of other languages.
#[tactic(auto, unfolding(crate::specs::Foreign::other_words))]
fn other_words() -> &'static [Foreign]
    ensures { map foreign_of result.now ≡ other_words }
{
    &OTHER_WORDS
}

/// Whether this is said of the word.
fn is_for(foreign: &Foreign, word: &[u8]) -> bool
    ensures { result ≡ bytes_eq foreign.now.word.now word.now }
{
    foreign.word.as_bytes() == word
}

/// The note for the word, or the other one.
fn note_for(foreigns: &'static [Foreign], word: &[u8], other: &'static str) -> &'static str
    ensures { result.now ≡ option_map_or (λ foreign. foreign.note)
        (find (λ foreign. bytes_eq foreign.word word.now) (map foreign_of foreigns.now)) other.now }
{
    for foreign in foreigns {
        if is_for(foreign, word) {
            return foreign.note;
        }
    }
    other
}

/// What is said of a word of another language; nothing of other words.
#[tactic(auto, unfolding(crate::specs::Foreign::word_note))]
pub(crate) fn word_note(word: &[u8]) -> &'static str
    ensures { result.now ≡ word_note word.now }
{
    note_for(other_words(), word, "")
}
