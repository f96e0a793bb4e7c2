//! What may stand in a line of a task table, word by word.

ghost use Rattle.std.specs.Prelude.{◌≡◌, bytes_eq, find};
ghost use Rattle.message_table.specs.Parts.{at_first as wanted_first, behind as wanted_behind};
ghost use Rattle.message_table.specs.Parts.{behind_key as wanted_behind_key};
ghost use Rattle.message_table.specs.Parts.{behind_name as wanted_behind_name};
ghost use Rattle.message_table.specs.Parts.{follows as parts_behind, is_stay as stay_test};
ghost use Rattle.message_table.specs.Parts.{is_whole as whole_test, key as key_of};
ghost use Rattle.message_table.specs.Parts.{may_end as end_test, part_of, role_of as role_at};

use crate::numerals::is_numeral;

/// A part of a line. A frame and a deadline are told apart by whether the line has an event.
#[derive(Clone, Copy)]
pub(crate) enum Part {
    /// What stands before the first line.
    FirstLine,
    /// What stands before another line.
    OtherLine,
    Table,
    End,
    Process,
    Event,
    Frame,
    EventFrame,
    Deadline,
    EventDeadline,
    First,
    Cost,
    Stay,
}

/// What is wanted at a place of a line.
#[derive(Clone, Copy)]
pub(crate) enum Wanted {
    /// The key of one of the parts that may stand behind this one.
    Key { behind: Part },
    /// The name in a part.
    Name { of: Part },
    /// The ticks of a part.
    Ticks { of: Part },
}

/// What a word of a line is.
#[derive(Clone, Copy)]
pub(crate) enum Role {
    /// The key of a part.
    Key { of: Part },
    /// The name in a part.
    Name { of: Part },
    /// The ticks of a part.
    Ticks { of: Part },
    /// No key of a part that may stand behind this one.
    NoKey { behind: Part },
    /// No numeral, in the place of ticks.
    NoTicks { of: Part },
}

impl Part {
    /// The word that the part begins with.
    fn key(self) -> &'static [u8]
        ensures { result.now ≡ key_of self }
    {
        match self {
            Part::FirstLine | Part::OtherLine => b"",
            Part::Table => b"table",
            Part::End => b"end",
            Part::Process => b"process",
            Part::Event => b"event",
            Part::Frame | Part::EventFrame => b"frame",
            Part::Deadline | Part::EventDeadline => b"deadline",
            Part::First => b"first",
            Part::Cost => b"cost",
            Part::Stay => b"stay",
        }
    }

    /// The parts that may stand behind this one.
    fn follows(self) -> &'static [Part]
        ensures { result.now ≡ parts_behind self }
    {
        match self {
            Part::FirstLine => &[Part::Table],
            Part::OtherLine => &[Part::Process, Part::End],
            Part::Table | Part::End => &[],
            Part::Process => &[Part::Event, Part::Frame],
            Part::Event => &[Part::EventFrame],
            Part::Frame => &[Part::Deadline, Part::First, Part::Cost],
            Part::EventFrame => &[Part::EventDeadline, Part::Cost],
            Part::Deadline => &[Part::First, Part::Cost],
            Part::EventDeadline | Part::First => &[Part::Cost],
            Part::Cost | Part::Stay => &[Part::Stay],
        }
    }

    /// Whether a line may end behind this part.
    fn may_end(self) -> bool
        ensures { result ≡ end_test self }
    {
        matches!(self, Part::Table | Part::End | Part::Cost | Part::Stay)
    }

    /// Whether this is a stay.
    pub fn is_stay(self) -> bool
        ensures { result ≡ stay_test self }
    {
        matches!(self, Part::Stay)
    }

    /// What is wanted behind the key of this part.
    fn behind_key(self) -> Wanted
        ensures { result ≡ wanted_behind_key self }
    {
        match self {
            Part::FirstLine | Part::OtherLine | Part::End => Wanted::Key { behind: self },
            Part::Table | Part::Process | Part::Event | Part::Stay => Wanted::Name { of: self },
            Part::Frame
            | Part::EventFrame
            | Part::Deadline
            | Part::EventDeadline
            | Part::First
            | Part::Cost => Wanted::Ticks { of: self },
        }
    }

    /// What is wanted behind the name in this part.
    fn behind_name(self) -> Wanted
        ensures { result ≡ wanted_behind_name self }
    {
        match self {
            Part::Stay => Wanted::Ticks { of: self },
            _ => Wanted::Key { behind: self },
        }
    }
}

/// The part of this key that may stand behind another part.
fn part_with_key(behind: Part, word: &[u8]) -> Option<Part>
    ensures { result ≡ find (λ part. bytes_eq (key_of part) word.now) (parts_behind behind) }
{
    let parts = behind.follows();
    for part in parts {
        if part.key() == word {
            return Some(*part);
        }
    }
    None
}

impl Wanted {
    /// What is wanted at the first place of the line of this number.
    pub fn at_first(number: usize) -> Wanted
        ensures { result ≡ wanted_first number }
    {
        let behind = if number == 1 {
            Part::FirstLine
        } else {
            Part::OtherLine
        };
        Wanted::Key { behind }
    }

    /// What a word is at a place where this is wanted.
    pub fn role_of(self, word: &[u8]) -> Role
        ensures { result ≡ role_at self word.now }
    {
        match self {
            Wanted::Key { behind } => match part_with_key(behind, word) {
                None => Role::NoKey { behind },
                Some(of) => Role::Key { of },
            },
            Wanted::Name { of } => Role::Name { of },
            Wanted::Ticks { of } => {
                if is_numeral(word) {
                    Role::Ticks { of }
                } else {
                    Role::NoTicks { of }
                }
            }
        }
    }

    /// Whether a line may end where this is wanted.
    pub fn is_whole(self) -> bool
        ensures { result ≡ whole_test self }
    {
        match self {
            Wanted::Key { behind } => behind.may_end(),
            Wanted::Name { .. } | Wanted::Ticks { .. } => false,
        }
    }
}

impl Role {
    /// What is wanted behind such a word.
    pub fn behind(self) -> Wanted
        ensures { result ≡ wanted_behind self }
    {
        match self {
            Role::Key { of } => of.behind_key(),
            Role::Name { of } => of.behind_name(),
            Role::Ticks { of } => Wanted::Key { behind: of },
            Role::NoKey { behind } => Wanted::Key { behind },
            Role::NoTicks { of } => Wanted::Ticks { of },
        }
    }

    /// The part that such a word belongs to.
    pub fn part(self) -> Part
        ensures { result ≡ part_of self }
    {
        match self {
            Role::Key { of } | Role::Name { of } | Role::Ticks { of } | Role::NoTicks { of } => of,
            Role::NoKey { behind } => behind,
        }
    }
}
