//! A text that is written word by word.

ghost use Rattle.std.specs.Prelude.{◌≡◌, ◌<◌, ◌++◌, false, length, OnOk};
ghost use Rattle.syntax.specs.Spellings.{keywords, signs};
ghost use Rattle.syntax.specs.Words as w;
ghost use Rattle.syntax_printer.specs.Pages.{put, ended, gap as gap_of};

use itoa::Buffer;
use out_of_memory::OutOfMemory;
use std::marker::Model;
use syntax::{keyword_spelling, sign_spelling};
use syntax_tree::{Name, Text};

/// A word that was written; a lack of memory returns from the function. It is `?` with no conversion
/// of the error, which spares the proof of each function that writes the steps of one.
macro_rules! tri {
    ($written:expr) => {
        match $written {
            Ok(it) => it,
            Err(error) => return Err(error),
        }
    };
}

pub(crate) use tri;

/// A text, and whether a line begins at its end.
#[derive(Drop)]
pub struct Page {
    pub text: Text,
    pub fresh: bool,
}

impl Model for Page {
    ghost use Rattle.syntax_printer.specs.Pages.{Paper};

    ghost Value = { Paper };

    ghost view = { λ page. record { text = page.text; fresh = page.fresh } };
}

/// What stands before a word.
fn gap(fresh: bool) -> &'static [u8]
    ensures { result.now ≡ gap_of fresh }
{
    if fresh { b"" } else { b" " }
}

impl Page {
    /// A word with these bytes, after a space unless it is the first of its line.
    fn word(&mut self, bytes: &[u8]) -> Result<(), OutOfMemory>
        ensures text { OnOk result (self.new.text ≡ (self.old.text ++ gap_of self.old.fresh) ++
            bytes.now) }
        ensures fresh { OnOk result (self.new.fresh ≡ false) }
    {
        self.text.extend(gap(self.fresh))?;
        self.text.extend(bytes)?;
        self.fresh = false;
        Ok(())
    }

    #[tactic(auto, unfolding(crate::specs::Pages::put))]
    pub fn name(&mut self, name: &Name) -> Result<(), OutOfMemory>
        ensures { OnOk result (self.new ≡ put self.old (w.named name.now)) }
    {
        self.word(name.as_bytes())
    }

    #[tactic(auto, unfolding(crate::specs::Pages::put))]
    pub fn number(&mut self, value: u32) -> Result<(), OutOfMemory>
        ensures { OnOk result (self.new ≡ put self.old (w.number value)) }
    {
        let mut digits = Buffer::new();
        self.word(digits.format(value).as_bytes())
    }

    /// The keyword at this place of the list of keywords.
    #[tactic(auto, unfolding(crate::specs::Pages::put), using(crate::proofs::Tables::word_at))]
    pub fn keyword(&mut self, at: u8) -> Result<(), OutOfMemory>
        requires { at < length keywords }
        ensures { OnOk result (self.new ≡ put self.old (w.keyword at)) }
    {
        self.word(keyword_spelling(at))
    }

    /// The word that begins a deadline, which is a name to the lexer.
    #[tactic(auto, unfolding(crate::specs::Pages::put))]
    pub fn deadline_word(&mut self) -> Result<(), OutOfMemory>
        ensures { OnOk result (self.new ≡ put self.old w.DEADLINE) }
    {
        self.word(b"deadline")
    }

    /// The sign at this place of the list of signs.
    #[tactic(auto, unfolding(crate::specs::Pages::put), using(crate::proofs::Tables::word_at))]
    pub fn sign(&mut self, at: u8) -> Result<(), OutOfMemory>
        requires { at < length signs }
        ensures { OnOk result (self.new ≡ put self.old (w.sign at)) }
    {
        self.word(sign_spelling(at))
    }

    /// The end of the line.
    #[tactic(auto, unfolding(crate::specs::Pages::ended))]
    pub fn end_line(&mut self) -> Result<(), OutOfMemory>
        ensures { OnOk result (self.new ≡ ended self.old) }
    {
        self.text.extend(b"\n")?;
        self.fresh = true;
        Ok(())
    }
}
