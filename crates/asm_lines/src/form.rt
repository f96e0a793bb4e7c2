//! The form of a tree's line.

ghost use Rattle.std.specs.Prelude.{◌≡◌, ◌≤◌, ◌==◌, not, [], length, option_map, IfOk, OnOk};
ghost use Rattle.std.specs.List.{list_all};
ghost use Rattle.text_fields.specs.LineFields.{is_digit as digit_test};
ghost use Rattle.asm_lines.specs.Shapes.{shape_of};
ghost use Rattle.asm_lines.specs.TreeForm.{closed, is as same, is_number as number_test, is_segment as segment_test, is_tree_line, is_whole as whole_test, last, line_len as line_front, segment, step, tree_form, when};

use out_of_memory::OutOfMemory;
use std::alloc::Global;
use text_fields::{cut_at, is_digit, is_numeral};

/// What must come next in the line of a tree.
#[derive(Clone, Copy)]
pub enum Awaits {
    /// The word `tree`.
    Tree,
    /// A segment, or the end of the tree.
    Segment,
    /// A number, and then the next segment.
    Number,
    /// A number, and then a tree between parentheses.
    NumberAndArm,
    /// A tree between parentheses.
    Arm,
    /// Nothing any more: the line is the line of no tree.
    Nothing,
}

/// What must come next, and which parentheses are open; of each, whether the first arm of a fork
/// stands in it.
#[derive(Drop)]
pub struct Form {
    pub awaits: Awaits,
    pub arms: Vec<bool>,
}

/// Whether all bytes are digits.
fn are_digits(word: &[u8]) -> bool
    ensures { result ≡ list_all digit_test word.now }
{
    word.iter().all(|byte| is_digit(*byte))
}

/// Whether the word is a number: digits, and the first of more is no 0.
fn is_number(word: &[u8]) -> bool
    ensures { result ≡ number_test word.now }
{
    are_digits(word) && is_numeral(word)
}

/// Whether the two are the same word.
fn is(word: &[u8], other: &[u8]) -> bool
    ensures { result ≡ same word.now other.now }
{
    word == other
}

/// Whether a segment may come next.
fn is_segment(awaits: Awaits) -> bool
    ensures { result ≡ segment_test awaits }
{
    match awaits {
        Awaits::Segment => true,
        Awaits::Tree | Awaits::Number | Awaits::NumberAndArm | Awaits::Arm | Awaits::Nothing => {
            false
        }
    }
}

/// Takes the last of the open parentheses, where there is one.
fn take_last(arms: &mut Vec<bool>) -> Option<bool>
    ensures { last arms.old.items ≡ option_map (λ b. (arms.new.items, b)) result }
{
    arms.pop()
}

impl Form {
    /// Before the first word.
    fn new(alloc: Global) -> Form
        ensures { shape_of result ≡ record { awaits = Awaits.Tree; arms = [] } }
    {
        Form {
            awaits: Awaits::Tree,
            arms: Vec::new(alloc),
        }
    }

    /// No word may follow.
    fn refuse(&mut self)
        ensures { shape_of self.new ≡ record { awaits = Awaits.Nothing; arms = [] } }
    {
        self.awaits = Awaits::Nothing;
        self.arms.clear();
    }

    /// A closing parenthesis.
    fn close(&mut self) -> Result<(), OutOfMemory>
        ensures { OnOk result (shape_of self.new ≡ closed (last self.old.arms.items)) }
    {
        match take_last(&mut self.arms) {
            None => self.refuse(),
            Some(true) => {
                self.arms.push(false)?;
                self.awaits = Awaits::Arm;
            }
            Some(false) => self.awaits = Awaits::Segment,
        }
        Ok(())
    }

    /// A word where a segment may stand.
    fn segment(&mut self, word: &[u8]) -> Result<(), OutOfMemory>
        ensures { OnOk result (shape_of self.new ≡ segment word.now self.old.arms.items) }
    {
        if is(word, b"line") {
            self.awaits = Awaits::Number;
        } else if is(word, b"fork") {
            self.arms.push(true)?;
            self.awaits = Awaits::Arm;
        } else if is(word, b"rep") {
            self.awaits = Awaits::NumberAndArm;
        } else if is(word, b"call") {
            self.awaits = Awaits::Number;
        } else if is(word, b"stay") {
            self.awaits = Awaits::NumberAndArm;
        } else if is(word, b"wait") {
            self.awaits = Awaits::Segment;
        } else if is(word, b"exit") {
            self.awaits = Awaits::Segment;
        } else if is(word, b")") {
            self.close()?;
        } else {
            self.awaits = Awaits::Nothing;
        }
        Ok(())
    }

    /// Goes on to what is awaited, where the word is what was; else no word may follow.
    fn go_on(&mut self, holds: bool, awaits: Awaits)
        ensures { shape_of self.new ≡ when holds
            (record { awaits = awaits; arms = self.old.arms.items }) }
    {
        if holds {
            self.awaits = awaits;
        } else {
            self.refuse();
        }
    }

    /// One more word.
    fn step(&mut self, word: &[u8]) -> Result<(), OutOfMemory>
        ensures { OnOk result (shape_of self.new ≡ step (shape_of self.old) word.now) }
    {
        match self.awaits {
            Awaits::Tree => self.go_on(is(word, b"tree"), Awaits::Segment),
            Awaits::Segment => self.segment(word)?,
            Awaits::Number => self.go_on(is_number(word), Awaits::Segment),
            Awaits::NumberAndArm => {
                self.go_on(is_number(word), Awaits::Arm);
                if let Awaits::Arm = self.awaits {
                    self.arms.push(false)?;
                }
            }
            Awaits::Arm => self.go_on(is(word, b"("), Awaits::Segment),
            Awaits::Nothing => self.refuse(),
        }
        Ok(())
    }

    /// Whether the words so far are a whole tree.
    fn is_whole(&self) -> bool
        ensures { result ≡ whole_test (shape_of self.now) }
    {
        is_segment(self.awaits) && self.arms.len() == 0
    }
}

/// Whether the line, without its LF, has the form of a tree, however deep it nests.
#[tactic(auto, unfolding(crate::specs::TreeForm::tree_form))]
fn is_tree(alloc: Global, line: &[u8]) -> Result<bool, OutOfMemory>
    ensures { IfOk result (λ holds. holds ≡ tree_form line.now) }
{
    let mut form = Form::new(alloc);
    let mut rest = line;
    while let Some(cut) = cut_at(rest, b' ') {
        form.step(cut.before)?;
        rest = cut.after;
    }
    form.step(rest)?;
    Ok(form.is_whole())
}

fn is_in_line(byte: u8) -> bool
    ensures { result ≡ not (byte == 10) }
{
    byte != b'\n'
}

/// How many bytes stand before the end of the line.
fn line_len(bytes: &[u8]) -> usize
    ensures value { result ≡ line_front bytes.now }
    ensures within { result ≤ length bytes.now }
{
    bytes.iter().take_while(|byte| is_in_line(**byte)).count()
}

/// Whether the bytes begin with a line that has the form of a tree.
pub fn is_tree_first(alloc: Global, bytes: &[u8]) -> Result<bool, OutOfMemory>
    ensures { IfOk result (λ holds. holds ≡ is_tree_line bytes.now) }
{
    let len = line_len(bytes);
    if len == bytes.len() {
        return Ok(false);
    }
    let (line, _rest) = bytes.split_at(len);
    is_tree(alloc, line)
}
