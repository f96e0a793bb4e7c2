//! A script, passed line by line.

ghost use Rattle.std.specs.Prelude.{IfOk, drop, length, map, pos, true, ℕ, ◌≡◌, ◌≤◌};
ghost use Rattle.syntax_tree.specs.Plain.{Program};
ghost use Rattle.source_semantics.specs.Config.{Config};
ghost use Rattle.source_semantics.specs.Starts.{device_value, due, value_set};
ghost use Rattle.script.specs.Scripts.{tick_of as tick_in};
ghost use Rattle.script.specs.Meaning.{line_said, said};
ghost use Rattle.replay_script.specs.Cursors.{ArePassed, IsAt, IsCursor, IsWithin, are_in_order, lines_of, script_in, until, word, word_after};

use out_of_memory::OutOfMemory;
use script::{Script, ScriptLine};
use std::alloc::Global;

/// How many devices a line can name.
const DEVICES: usize = 65_536;

/// A script whose lines before a tick are passed, so that each line is looked at a few times, not
/// once an event.
#[derive(Drop)]
pub struct ScriptCursor<'s> {
    pub(crate) script: &'s Script,
    /// Whether the lines are in the order of their ticks. Where they are not, none is passed.
    pub(crate) in_order: bool,
    /// The tick before which lines are passed.
    pub(crate) reached: u64,
    /// How many lines are passed.
    pub(crate) done: usize,
    /// By device the value that was set last by the lines that are passed.
    pub(crate) words: Vec<i32>,
}

/// The tick of a line.
fn tick_of(line: &ScriptLine) -> u64
    ensures { result ≡ tick_in line.now }
{
    match *line {
        ScriptLine::Set { tick, .. } | ScriptLine::Occur { tick, .. } => tick,
    }
}

/// Whether the ticks of the lines do not descend.
fn is_in_order(lines: &[ScriptLine]) -> bool
    ensures { result ≡ are_in_order 0 lines.now }
{
    let mut before = 0;
    for line in lines {
        let tick = tick_of(line);
        if tick < before {
            return false;
        }
        before = tick;
    }
    true
}

/// The first lines, up to the first that is after the tick.
fn lines_until(lines: &[ScriptLine], tick: u64) -> &[ScriptLine]
    ensures { result.now ≡ until tick lines.now }
{
    for (at, line) in lines.iter().enumerate() {
        if tick < tick_of(line) {
            return &lines[..at];
        }
    }
    lines
}

/// So many words that are 0.
fn zero_words(alloc: Global, count: usize) -> Result<Vec<i32>, OutOfMemory>
    ensures room { IfOk result (λ words. length words.items ≡ count) }
    ensures zero { IfOk result (λ words. (d : ℕ) → word d words.items ≡ pos 0) }
{
    let words = vec![in alloc; 0; count]?;
    Ok(words)
}

/// Keeps the word that the line sets, if it does.
fn keep_word(words: &mut Vec<i32>, line: &ScriptLine)
    requires room { length words.old.items ≡ 65536 }
    ensures room { length words.new.items ≡ 65536 }
    ensures word { (d : ℕ) → word d words.new.items ≡
        word_after d (word d words.old.items) line.now }
{
    if let ScriptLine::Set { dev, value, .. } = *line {
        words[usize::from(dev)] = value;
    }
}

/// Passes the lines before the tick, where the lines are in order.
fn pass_lines(
    lines: &[ScriptLine],
    in_order: bool,
    done: &mut usize,
    words: &mut Vec<i32>,
    tick: u64,
)
    requires order { in_order ≡ are_in_order 0 lines.now }
    requires room { length words.old.items ≡ 65536 }
    requires within { done.old ≤ length lines.now }
    requires passed { ArePassed tick done.old lines.now words.old.items }
    ensures room { length words.new.items ≡ 65536 }
    ensures within { done.new ≤ length lines.now }
    ensures passed { ArePassed tick done.new lines.now words.new.items }
    ensures coming { in_order ≡ true → are_in_order tick (drop done.new lines.now) ≡ true }
{
    if !in_order {
        return;
    }
    while *done < lines.len() {
        let line = &lines[*done];
        if tick <= tick_of(line) {
            return;
        }
        keep_word(words, line);
        *done += 1;
    }
}

impl<'s> ScriptCursor<'s> {
    /// The script before its first line. Want of memory is the only error.
    pub fn new(alloc: Global, script: &'s Script) -> Result<ScriptCursor<'s>, OutOfMemory>
        ensures start { IfOk result (IsAt 0) }
        ensures script { IfOk result (λ cursor. cursor.script.now ≡ script.now) }
    {
        let words = zero_words(alloc, DEVICES)?;
        let in_order = is_in_order(script.lines().as_slice());
        Ok(ScriptCursor {
            script,
            in_order,
            reached: 0,
            done: 0,
            words,
        })
    }

    /// Goes on to the tick: the lines before it are passed.
    pub fn pass(&mut self, tick: u64)
        requires cursor { IsWithin tick self.old }
        ensures at { IsAt tick self.new }
        ensures script { self.new.script ≡ self.old.script }
    {
        let lines = self.script.lines().as_slice();
        pass_lines(lines, self.in_order, &mut self.done, &mut self.words, tick);
        self.reached = tick;
    }

    /// The tick before which the run over the script ends.
    pub fn end(&self) -> u64
        ensures { result ≡ self.now.script.now.end }
    {
        self.script.end()
    }

    /// The lines that are not passed.
    fn coming(&self) -> &[ScriptLine]
        requires { self.now.done ≤ length (lines_of self.now) }
        ensures { result.now ≡ drop self.now.done (lines_of self.now) }
    {
        &self.script.lines().as_slice()[self.done..]
    }

    /// The lines that count from the tick reached up to this tick.
    pub fn up_to(&self, tick: u64) -> &[ScriptLine]
        requires { IsCursor self.now }
        ensures due { (g : Program) (c : Config) (u : ℕ) → self.now.reached ≤ u → u ≤ tick →
            due g (said result.now self.now.script.now.end) c u ≡
            due g (script_in self.now) c u }
        ensures words { (d : ℕ) → self.now.reached ≤ tick → value_set tick d (word d self.now.words.items)
            (map line_said result.now) ≡ device_value (script_in self.now) tick d }
    {
        let lines = self.coming();
        if self.in_order {
            lines_until(lines, tick)
        } else {
            lines
        }
    }

    /// The value that the lines passed set last of the device, 0 where there is none.
    pub(crate) fn kept_word(&self, device: usize) -> i32
        ensures { result ≡ word device self.now.words.items }
    {
        self.words.get(device).copied().unwrap_or(0)
    }
}
