//! The table of the commands.

ghost use Rattle.std.specs.Prelude.{◌≡◌, map};
ghost use Rattle.message_words.specs.Usage.{rows};
ghost use Rattle.message_words.specs.Seen.{row_of};

/// A row: its command, the words behind it, what it does, and which sign of these words is
/// explained; none where it is empty.
#[derive(Clone, Copy)]
pub(crate) struct Row {
    pub command: &'static str,
    pub places: &'static str,
    pub does: &'static str,
    pub sign: &'static str,
}

/// Each command, in the order in which they are told.
const ROWS: [Row; 18] = [
    Row {
        command: "go",
        places: "P I S [K]",
        does: "check P, store its image in I, put report and log over script S",
        sign: "K",
    },
    Row {
        command: "check",
        places: "P [K]",
        does: "check P and put its report",
        sign: "K",
    },
    Row {
        command: "json",
        places: "P [K]",
        does: "the same report as JSON",
        sign: "K",
    },
    Row {
        command: "why",
        places: "P [K]",
        does: "take the bounds of P apart",
        sign: "K",
    },
    Row {
        command: "fit",
        places: "P [K]",
        does: "tell what single change would make P timely",
        sign: "K",
    },
    Row {
        command: "slack",
        places: "P [K]",
        does: "tell how many ticks longer each process may run",
        sign: "K",
    },
    Row {
        command: "compile",
        places: "P I [K]",
        does: "check P, store its image in I, put the report",
        sign: "K",
    },
    Row {
        command: "run",
        places: "I S",
        does: "put the log of image I over script S",
        sign: "",
    },
    Row {
        command: "watch",
        places: "I S T",
        does: "put the state of image I over script S at a stop",
        sign: "T",
    },
    Row {
        command: "chart",
        places: "I S A B",
        does: "draw who runs in ticks A to B - 1 of image I over script S",
        sign: "A B",
    },
    Row {
        command: "replay",
        places: "P S L",
        does: "tell whether log L is a run of P over script S",
        sign: "",
    },
    Row {
        command: "edf",
        places: "P S",
        does: "judge and run P by earliest deadlines over script S",
        sign: "",
    },
    Row {
        command: "print",
        places: "P",
        does: "put P in its canonical form, without comments",
        sign: "",
    },
    Row {
        command: "dis",
        places: "I A",
        does: "store image I as text in A",
        sign: "",
    },
    Row {
        command: "asm",
        places: "A I",
        does: "store the image of text A in I",
        sign: "",
    },
    Row {
        command: "migrate",
        places: "I J",
        does: "store image I in J by the newest version",
        sign: "",
    },
    Row {
        command: "table",
        places: "F P",
        does: "store in P a program with the costs, frames and stays of table F",
        sign: "",
    },
    Row {
        command: "make",
        places: "KEY N P S",
        does: "store a generated program of N processes in P, its script in S",
        sign: "KEY",
    },
];

/// The table.
#[tactic(auto, unfolding(crate::specs::Usage::rows))]
pub(crate) fn rows() -> &'static [Row]
    ensures { map row_of result.now ≡ rows }
{
    &ROWS
}
