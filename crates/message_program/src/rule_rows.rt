//! The rules that a text may fail, and what is said of each.

ghost use Rattle.std.specs.Prelude.{◌≡◌, ◌==◌, find, map};
ghost use Rattle.std.specs.Option.{unwrap_or};
ghost use Rattle.message_program.specs.Rules.{no_rule, rule, rules};
ghost use Rattle.message_program.specs.Seen.{rule_of};

/// A rule: its number; the sentence before and behind the word at the place, the whole of it before
/// where it does not name the word; and what can be done, nothing where that is plain.
#[derive(Clone, Copy)]
pub(crate) struct Rule {
    pub number: u8,
    pub before: &'static str,
    pub behind: &'static str,
    pub note: &'static str,
}

/// Each rule with a sentence of its own.
const RULES: [Rule; 25] = [
    Rule {
        number: 2,
        before: "the number ",
        behind: " is above 2147483647",
        note: "numbers are -2147483648 to 2147483647",
    },
    Rule {
        number: 11,
        before: "",
        behind: " opens level 65; 64 are the most",
        note: "put an inner part into a procedure or a variable of its own",
    },
    Rule {
        number: 20,
        before: "",
        behind: " is declared nowhere in reach",
        note: "declare it, or correct the name",
    },
    Rule {
        number: 21,
        before: "",
        behind: " is declared already",
        note: "give one of them another name",
    },
    Rule {
        number: 22,
        before: "",
        behind: " is no name of the kind that is wanted here",
        note: "",
    },
    Rule {
        number: 23,
        before: "",
        behind: " closes nothing",
        note: "behind `end` stands the name of what it closes",
    },
    Rule {
        number: 30,
        before: "types or numbers of arguments do not agree",
        behind: "",
        note: "",
    },
    Rule {
        number: 31,
        before: "a routine reaches itself through its calls",
        behind: "",
        note: "no routine calls itself, nor through others; write a loop",
    },
    Rule {
        number: 32,
        before: "a lower bound is above its upper bound, or a loop goes up to 2147483647",
        behind: "",
        note: "",
    },
    Rule {
        number: 33,
        before: "the loop has more than 1000000 turns",
        behind: "",
        note: "make fewer turns, or split the loop over activations",
    },
    Rule {
        number: 34,
        before: "a statement or a call stands where it may not",
        behind: "",
        note: "an entry calls no entry and no procedure; a function that is no entry has no `get` or `put`, calls no entry and no procedure, and changes nothing but its own variables; a function is no statement, a procedure gives no value; `exit` stands inside a loop",
    },
    Rule {
        number: 35,
        before: "a handler reaches a `wait`, or lists a number twice",
        behind: "",
        note: "no handler waits, and each lists a number once",
    },
    Rule {
        number: 36,
        before: "a frame, a deadline or a first activation is out of its range",
        behind: "",
        note: "",
    },
    Rule {
        number: 37,
        before: "the event starts no process, or more than one",
        behind: "",
        note: "write `atEvent` with it in exactly one process, or leave the event out",
    },
    Rule {
        number: 38,
        before: "the device has the other direction",
        behind: "",
        note: "`get` takes from `in` devices, `put` gives to `out` devices",
    },
    Rule {
        number: 39,
        before: "the number of an exception is out of its range",
        behind: "",
        note: "",
    },
    Rule {
        number: 40,
        before: "a program has 1 to 64 processes, and up to 64 monitors, devices and events each",
        behind: "",
        note: "declare one, or join or leave out some",
    },
    Rule {
        number: 41,
        before: "this is condition number 257; 256 are the most",
        behind: "",
        note: "join or leave out some",
    },
    Rule {
        number: 42,
        before: "this is routine number 513; 512 are the most",
        behind: "",
        note: "join or leave out some",
    },
    Rule {
        number: 43,
        before: "the variables take more than 1048576 words",
        behind: "",
        note: "make arrays smaller",
    },
    Rule {
        number: 44,
        before: "the array has more than 65536 elements",
        behind: "",
        note: "make arrays smaller",
    },
    Rule {
        number: 45,
        before: "the limit of a wait is out of its range",
        behind: "",
        note: "",
    },
    Rule {
        number: 46,
        before: "the program has more than 65535 instructions",
        behind: "",
        note: "make the program smaller",
    },
    Rule {
        number: 47,
        before: "the stack of ",
        behind: " takes more than 4096 words",
        note: "make arrays smaller",
    },
    Rule {
        number: 48,
        before: "`edf` takes no program with a `wait`",
        behind: "",
        note: "`go`, `check` and `run` take it",
    },
];

/// What is said where no rule has the number.
const NO_RULE: Rule = Rule {
    number: 0,
    before: "the text is no program",
    behind: "",
    note: "",
};

/// The rules.
#[tactic(auto, unfolding(crate::specs::Rules::rules))]
fn rules() -> &'static [Rule]
    ensures { map rule_of result.now ≡ rules }
{
    &RULES
}

/// What is said where no rule has the number.
fn no_rule() -> &'static Rule
    ensures { rule_of result.now ≡ no_rule }
{
    &NO_RULE
}

/// The rule of this number among these, or the other one.
fn rule_among(rules: &'static [Rule], number: u8, other: &'static Rule) -> &'static Rule
    ensures { rule_of result.now ≡
        unwrap_or (find (λ rule. rule.number == number) (map rule_of rules.now)) (rule_of other.now) }
{
    for rule in rules {
        if rule.number == number {
            return rule;
        }
    }
    other
}

/// The rule of this number.
pub(crate) fn numbered(number: u8) -> &'static Rule
    ensures { rule_of result.now ≡ rule number }
{
    rule_among(rules(), number, no_rule())
}
