//! The hints for bytes that begin no word.

ghost use Rattle.std.specs.Prelude.{◌≡◌, map};
ghost use Rattle.message_program.specs.Hints.{beginnings};
ghost use Rattle.message_program.specs.Seen.{hint_of};

/// A hint: the bytes that it is for, and what is said of them.
#[derive(Clone, Copy)]
pub(crate) struct Hint {
    pub bytes: &'static str,
    pub note: &'static str,
}

/// Of signs that begin a comment elsewhere.
const OF_COMMENTS: &str = "a comment begins with `%` and goes to the end of its line";

/// Of braces.
const OF_BRACES: &str = "write words: `begin`, `then` or `do`, and `end` with its name or word";

/// Of quotation marks.
const OF_TEXTS: &str = "there are no characters or texts; devices give and take numbers";

/// Bytes that begin no word; the first that applies counts.
const BEGINNINGS: [Hint; 14] = [
    Hint {
        bytes: ";",
        note: "no sign stands between statements; leave it out",
    },
    Hint {
        bytes: "!=",
        note: "write `<>`",
    },
    Hint {
        bytes: "!",
        note: "write `not`",
    },
    Hint {
        bytes: "&",
        note: "write `and`",
    },
    Hint {
        bytes: "|",
        note: "write `or`",
    },
    Hint {
        bytes: "//",
        note: OF_COMMENTS,
    },
    Hint {
        bytes: "/*",
        note: OF_COMMENTS,
    },
    Hint {
        bytes: "#",
        note: OF_COMMENTS,
    },
    Hint {
        bytes: "/",
        note: "write `div`",
    },
    Hint {
        bytes: "{",
        note: OF_BRACES,
    },
    Hint {
        bytes: "}",
        note: OF_BRACES,
    },
    Hint {
        bytes: "\"",
        note: OF_TEXTS,
    },
    Hint {
        bytes: "'",
        note: OF_TEXTS,
    },
    Hint {
        bytes: "_",
        note: "a name begins with a letter",
    },
];

/// The hints for bytes that begin no word.
#[tactic(auto, unfolding(crate::specs::Hints::beginnings))]
pub(crate) fn beginnings() -> &'static [Hint]
    ensures { map hint_of result.now ≡ beginnings }
{
    &BEGINNINGS
}
