//! What is kept of a process while its run is drawn.

ghost use Rattle.std.specs.Prelude.{◌≡◌, ◌<◌, ◌≤◌, ◌+◌, ◌^◌, ◌++◌, [], ◌∷◌, ℕ, OnOk, List};
ghost use Rattle.base.specs.declared.event.Event.{Event as Fell};
ghost use Rattle.run_chart.specs.Letters.{drawn, first_of_two};
ghost use Rattle.run_chart.specs.Responses.{is_end, is_release};
ghost use Rattle.run_chart.specs.Traces.{Counts, with_longest};

use crate::Letter;
use crate::letters::{drawn, first_of_two};
use base::{Act, Event};
use out_of_memory::OutOfMemory;
use std::alloc::Global;
use syntax_tree::Text;

/// What a chart shows of a process, up to where its run is drawn.
#[derive(Drop)]
pub struct Trace {
    /// Its letters as they are drawn, by column that is over.
    pub row: Text,
    /// The letter of the column that is not over.
    pub letter: Letter,
    /// The tick of its last release.
    pub released: u64,
    /// How many activations ended.
    pub ended: u64,
    /// The longest of their responses, in ticks.
    pub longest: Option<u64>,
}

/// Whether an activation begins.
fn is_release(act: Act) -> bool
    ensures { result ≡ is_release act }
{
    matches!(act, Act::Release)
}

/// Whether an activation ends.
fn is_end(act: Act) -> bool
    ensures { result ≡ is_end act }
{
    matches!(act, Act::End)
}

impl Trace {
    /// One of a process before the first tick.
    pub fn new(alloc: Global) -> Trace
        ensures row { result.row ≡ [] }
        ensures letter { result.letter ≡ Letter.Blank }
        ensures counts { (k first : ℕ) → Counts k first [] result }
    {
        Trace {
            row: Text::new(alloc),
            letter: Letter::Blank,
            released: 0,
            ended: 0,
            longest: None,
        }
    }

    /// The process has this letter in a tick of the column.
    pub fn see(&mut self, letter: Letter)
        ensures { self.new ≡ record self.old { letter = first_of_two self.old.letter letter } }
    {
        self.letter = first_of_two(self.letter, letter);
    }

    /// The column is over. An error says that memory is short.
    pub fn end_column(&mut self) -> Result<(), OutOfMemory>
        ensures { OnOk result (self.new ≡ record self.old {
          row = self.old.row ++ drawn self.old.letter ∷ [];
          letter = Letter.Blank;
        }) }
    {
        let drawn = [drawn(self.letter)];
        self.letter = Letter::Blank;
        self.row.extend(&drawn)
    }

    /// An activation of so many ticks ended.
    fn end(&mut self, response: u64)
        requires { self.old.ended < 2 ^ 63 }
        ensures { self.new ≡ record self.old {
          ended = self.old.ended + 1;
          longest = with_longest self.old.longest response;
        } }
    {
        self.ended += 1;
        self.longest = Some(match self.longest {
            Some(longest) => longest.max(response),
            None => response,
        });
    }

    /// An event of the process, whose activations are counted that end from the first tick on.
    pub fn note(&mut self, first: u64, event: &Event)
        ghost before: { List Fell }
        requires counts { Counts event.now.proc first before self.old }
        requires few { self.old.ended < 2 ^ 63 }
        requires tick { event.now.tick < 2 ^ 63 }
        ensures counts { Counts event.now.proc first (before ++ event.now ∷ []) self.new }
        ensures row { self.new.row ≡ self.old.row }
        ensures letter { self.new.letter ≡ self.old.letter }
        ensures few { self.new.ended ≤ self.old.ended + 1 }
    {
        if is_release(event.act) {
            self.released = event.tick;
        } else if is_end(event.act) && event.tick >= first {
            self.end((event.tick + 1).saturating_sub(self.released));
        }
    }
}
