//! Segment trees: what the code of a part consists of, from left to right.
//!
//! Contracts see a list of segments by `views` of `specs/View.antt`, as the tree that the machine's
//! meaning speaks of.
//!
//! Segments.

ghost use Rattle.std.specs.Prelude.{◌≡◌, IfOk};
ghost use Rattle.machine_semantics.specs.Trees as tree;
ghost use Rattle.image_format.specs.Kept.{fork, rep, stay};
ghost use Rattle.image_format.specs.View.{view, views};

use out_of_memory::OutOfMemory;
use sqlite_items::Boxed;
use std::alloc::Global;
use syntax_tree::List;

/// A piece of code. Routines and monitors are numbered from 0. What has trees is kept in a box, so
/// that a segment takes two words.
#[derive(Debug, Drop)]
pub enum Seg {
    /// So many instructions that go on to the next one, with no call and no monitor left or
    /// entered.
    Line(u32),
    /// A choice: JZ to the second tree, the first tree, JMP behind the second, the second tree.
    Fork(Boxed<Arms<Segs>>),
    /// So many turns of a tree: REPS, the tree, REP to its start.
    Rep(Boxed<Turns<Segs>>),
    /// The call of a routine.
    Call(u16),
    /// The body of an entry: ENTER of a monitor, the tree, LEAVE of it.
    Stay(Boxed<Inside<Segs>>),
    /// WAIT, and REENT of the condition's monitor.
    Wait,
    /// EXIT to the end of the innermost turn.
    Exit,
}

/// Segments one after the other.
pub type Segs = List<Seg>;

/// The two trees of a choice.
#[derive(Debug, Drop)]
pub struct Arms<T> {
    pub first: T,
    pub second: T,
}

/// So many turns of a tree.
#[derive(Debug, Drop)]
pub struct Turns<T> {
    pub count: u32,
    pub body: T,
}

/// A tree inside a monitor.
#[derive(Debug, Drop)]
pub struct Inside<T> {
    pub monitor: u16,
    pub body: T,
}

impl Seg {
    /// A choice of two trees. An error says that memory is short.
    pub fn fork(alloc: Global, first: Segs, second: Segs) -> Result<Seg, OutOfMemory>
        ensures kept { IfOk result (λ seg. seg ≡ fork first second) }
        ensures tree { IfOk result (λ seg. view seg ≡ tree.Fork (views first) (views second)) }
    {
        Ok(Seg::Fork(Boxed::new(alloc, Arms { first, second })?))
    }

    /// So many turns of a tree. An error says that memory is short.
    pub fn rep(alloc: Global, count: u32, body: Segs) -> Result<Seg, OutOfMemory>
        ensures kept { IfOk result (λ seg. seg ≡ rep count body) }
        ensures tree { IfOk result (λ seg. view seg ≡ tree.Rep count (views body)) }
    {
        Ok(Seg::Rep(Boxed::new(alloc, Turns { count, body })?))
    }

    /// A tree inside a monitor. An error says that memory is short.
    pub fn stay(alloc: Global, monitor: u16, body: Segs) -> Result<Seg, OutOfMemory>
        ensures kept { IfOk result (λ seg. seg ≡ stay monitor body) }
        ensures tree { IfOk result (λ seg. view seg ≡ tree.Stay monitor (views body)) }
    {
        Ok(Seg::Stay(Boxed::new(alloc, Inside { monitor, body })?))
    }
}
