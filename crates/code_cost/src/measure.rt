//! What a text takes at most, and measures put together.

ghost use Rattle.std.specs.Prelude.{◌≡◌, ◌+◌};
ghost use Rattle.base.specs.Capped.{cap as capped};
ghost use Rattle.machine_isa.specs.Ticks.{ticks as ticks_of};
ghost use Rattle.code_cost.specs.Sums.{above, added, called, forked, held, joined, larger, looped, nothing, of, running, uncalled};

use base::{Cost, OVER};
use machine_isa::{Instr, ticks};

/// What stands for every height and every length above it.
pub const MOST: u64 = 2_147_483_647;

/// What the code of a text takes at most: its cost up to 1,000,000,001, the words of stack above
/// those that are there where it begins, and its number of instructions, both up to `MOST`.
#[derive(Clone, Copy)]
pub struct Measure {
    pub cost: Cost,
    pub height: u64,
    pub length: u64,
}

/// What is known of a routine: its cost behind its CALL, the ticks that an entry stays in its
/// monitor, the words of stack that it takes above its locals, the words of its locals, and its
/// number of instructions.
#[derive(Clone, Copy)]
pub struct RoutineMeasure {
    pub cost: Cost,
    pub stay: u64,
    pub height: u64,
    pub words: u64,
    pub length: u64,
}

pub fn cap(a: u64, b: u64) -> u64
    ensures { result ≡ capped (a + b) }
{
    a.saturating_add(b).min(OVER)
}

pub fn hold(a: u64, b: u64) -> u64
    ensures { result ≡ held (a + b) }
{
    a.saturating_add(b).min(MOST)
}

pub fn run(ticks: u64) -> Cost
    ensures { result ≡ running ticks }
{
    Cost {
        run: ticks,
        susp: 0,
        waits: 0,
    }
}

/// Costs one after another.
pub fn add(first: Cost, second: Cost) -> Cost
    ensures { result ≡ added first second }
{
    Cost {
        run: cap(first.run, second.run),
        susp: cap(first.susp, second.susp),
        waits: cap(first.waits, second.waits),
    }
}

fn larger_of(first: Cost, second: Cost) -> Cost
    ensures { result ≡ larger first second }
{
    Cost {
        run: first.run.max(second.run),
        susp: first.susp.max(second.susp),
        waits: first.waits.max(second.waits),
    }
}

impl Measure {
    /// So many ticks, words of stack and instructions.
    pub fn of(ticks: u64, height: u64, length: u64) -> Measure
        ensures { result ≡ of ticks height length }
    {
        Measure {
            cost: run(ticks),
            height,
            length,
        }
    }

    /// One instruction, and so many words of stack.
    pub fn instr(instr: &Instr, height: u64) -> Measure
        ensures { result ≡ of (ticks_of instr.now) height 1 }
    {
        Measure::of(u64::from(ticks(instr)), height, 1)
    }

    pub fn nothing() -> Measure
        ensures { result ≡ nothing }
    {
        Measure::of(0, 0, 0)
    }

    /// One text and then another.
    pub fn then(self, next: Measure) -> Measure
        ensures { result ≡ joined self next }
    {
        Measure {
            cost: add(self.cost, next.cost),
            height: self.height.max(next.height),
            length: hold(self.length, next.length),
        }
    }

    /// The text above so many words.
    pub fn above(self, words: u64) -> Measure
        ensures { result ≡ above words self }
    {
        Measure {
            cost: self.cost,
            height: hold(words, self.height),
            length: self.length,
        }
    }

    /// A choice between this text and another, behind its condition.
    pub fn or(self, other: Measure) -> Measure
        ensures { result ≡ forked self other }
    {
        Measure {
            cost: add(run(2), larger_of(add(run(1), self.cost), other.cost)),
            height: self.height.max(other.height),
            length: hold(2, hold(self.length, other.length)),
        }
    }

    /// So many turns of the text.
    pub fn times(self, turns: u64) -> Measure
        ensures { result ≡ looped turns self }
    {
        let turns = turns.min(OVER);
        let turn = cap(self.cost.run, 10);
        Measure {
            cost: Cost {
                run: cap(5, turns.saturating_mul(turn).min(OVER)),
                susp: turns.saturating_mul(self.cost.susp).min(OVER),
                waits: turns.saturating_mul(self.cost.waits).min(OVER),
            },
            height: hold(1, self.height.max(2)),
            length: hold(8, self.length),
        }
    }

    /// The call of a routine, whose arguments this is.
    pub fn call(self, routine: RoutineMeasure) -> Measure
        ensures { result ≡ called routine self }
    {
        Measure {
            cost: add(self.cost, add(run(6), routine.cost)),
            height: self
                .height
                .max(hold(hold(2, routine.words), routine.height)),
            length: hold(self.length, 1),
        }
    }

    /// Arguments of nothing that could be called.
    pub fn no_call(self) -> Measure
        ensures { result ≡ uncalled self }
    {
        Measure {
            cost: run(0),
            height: self.height,
            length: 0,
        }
    }
}
