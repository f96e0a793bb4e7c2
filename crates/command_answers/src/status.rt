//! Statuses.

/// How a call ended. The first that is due in the order of its steps is the answer.
#[derive(Clone, Copy, PartialEq, Eq)]
pub enum Status<'a> {
    /// 0: all that is due was done.
    Done,
    /// 1: the words are no command.
    Usage,
    /// 2: the text is no program text, or its program is too large.
    Text,
    /// 3: the program is not timely.
    Late,
    /// 4: the bytes are no valid image.
    Image,
    /// 5: the text is no script.
    Script,
    /// 6: the read of the file of this name failed.
    Unread(&'a str),
    /// 7: the write of the file of this name failed.
    Unwritten(&'a str),
    /// 7: a put failed.
    Unput,
    /// 8: there was not enough memory.
    Memory,
    /// 9: the text is no log, or its events are no run of the program.
    Log,
}

impl Status<'_> {
    ghost use Rattle.std.specs.Prelude.{◌≡◌};
    ghost use Rattle.command_answers.specs.Acts.{number_of};

    /// The exit status of the process.
    pub fn code(self) -> u8
        ensures { result ≡ number_of self.entry }
    {
        match self {
            Status::Done => 0,
            Status::Usage => 1,
            Status::Text => 2,
            Status::Late => 3,
            Status::Image => 4,
            Status::Script => 5,
            Status::Unread(_) => 6,
            Status::Unwritten(_) | Status::Unput => 7,
            Status::Memory => 8,
            Status::Log => 9,
        }
    }
}
