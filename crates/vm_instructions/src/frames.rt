//! The frames of a process.

ghost use Rattle.machine_semantics.specs.State.{own_locals, zeros, Value};
ghost use Rattle.vm_instructions.specs.Inside.{part};
ghost use Rattle.machine_semantics.specs.Effect.{arguments};
ghost use Rattle.std.specs.Prelude.{vec_len, ◌++◌, ◌-◌, take, ◌≡◌, ◌<◌, ◌≤◌, ◌+◌, ◌*◌, ◌∷◌, ℕ, [], length, slice_index_or, pos, IfOk, IfSome, IsSome, map};
ghost use Rattle.vm_instructions.specs.Frames.{Frames as Standing, IsValueFirst, called, operand_of, used, value, with_operands};

use crate::operand::Operand;
use out_of_memory::OutOfMemory;
use std::alloc::Global;
use std::marker::Model;

/// Where a caller's frame begins, and where it goes on.
#[derive(Clone, Copy)]
struct Mark {
    back: usize,
    base: usize,
    floor: usize,
}

/// The frames of a process, the innermost last. Once made, they take no memory.
#[derive(Drop)]
pub struct Frames {
    pub(crate) operands: Vec<Operand>,
    pub(crate) locals: Vec<i32>,
    marks: Vec<Mark>,
    /// Where the innermost frame's operands begin, and how many operands there are.
    pub(crate) floor: usize,
    pub(crate) top: usize,
    /// Where the innermost frame's locals begin, and how many locals there are.
    pub(crate) base: usize,
    pub(crate) size: usize,
}

impl Model for Frames {
    ghost use Rattle.vm_instructions.specs.Frames.{Frames as Standing};

    ghost Value = { Standing };

    ghost use Rattle.vm_instructions.specs.Inside.{AreLaid, standing};

    ghost view = { standing };

    ghost invariant = { AreLaid };
}

/// Writes 0 from one place up to another.
fn clear(words: &mut Vec<i32>, from: usize, to: usize)
    requires from { from ≤ to }
    requires to { to ≤ vec_len words.old }
    ensures cleared { part from to words.new.items ≡ zeros (to - from) }
    ensures before { take from words.new.items ≡ take from words.old.items }
    ensures len { vec_len words.new ≡ vec_len words.old }
{
    for k in from..to {
        words[k] = 0;
    }
}

/// A value; 0 for a counter.
fn value_of(operand: Operand) -> i32
    ensures { result ≡ value operand }
{
    match operand {
        Operand::Value(value) => value,
        Operand::Counter(_) => 0,
    }
}

/// Copies so many operands into locals.
fn copy(operands: &[Operand], from: usize, locals: &mut Vec<i32>, to: usize, count: usize)
    requires from { from + count ≤ length operands.now }
    requires to { to + count ≤ vec_len locals.old }
    ensures copied { part to (to + count) locals.new.items ≡
        map value (part from (from + count) operands.now) }
    ensures before { take to locals.new.items ≡ take to locals.old.items }
    ensures len { vec_len locals.new ≡ vec_len locals.old }
{
    for k in 0..count {
        locals[to + k] = value_of(operands[from + k]);
    }
}

/// Makes a frame of locals: so many operands as values, and then zeros.
fn make_locals(
    operands: &[Operand],
    from: usize,
    locals: &mut Vec<i32>,
    to: usize,
    params: usize,
    count: usize,
)
    requires from { from + params ≤ length operands.now }
    requires to { to + count ≤ vec_len locals.old }
    requires order { params ≤ count }
    ensures made { part to (to + count) locals.new.items ≡
        map value (part from (from + params) operands.now) ++ zeros (count - params) }
    ensures before { take to locals.new.items ≡ take to locals.old.items }
    ensures len { vec_len locals.new ≡ vec_len locals.old }
{
    copy(operands, from, locals, to, params);
    clear(locals, to + params, to + count);
}

impl Frames {
    ghost use Rattle.vm_instructions.specs.Frames.{Frames as Standing};

    /// No frame, with so many words of stack. It takes all the memory that the frames need.
    pub fn new(alloc: Global, room: usize) -> Result<Frames, OutOfMemory>
        ensures { IfOk result (λ frames. frames ≡
            record { room = room; locals = []; operands = []; callers = [] }) }
    {
        let operands = vec![in alloc; Operand::Value(0); room]?;
        let locals = vec![in alloc; 0; room]?;
        let marks = Vec::with_capacity(alloc, room / 2 + 1)?;
        Ok(Frames {
            operands,
            locals,
            marks,
            floor: 0,
            top: 0,
            base: 0,
            size: 0,
        })
    }

    /// One frame, with so many locals that are 0.
    pub fn begin(&mut self, locals: usize)
        requires { locals ≤ self.old.room }
        ensures { self.new ≡ record {
          room = self.old.room;
          locals = zeros locals;
          operands = [];
          callers = [];
        } }
    {
        self.marks.clear();
        self.floor = 0;
        self.top = 0;
        self.base = 0;
        self.size = locals;
        clear(&mut self.locals, 0, locals);
    }

    /// Puts an operand on top.
    #[inline(always)]
    pub fn push(&mut self, operand: Operand)
        requires { used self.old < self.old.room }
        ensures { self.new ≡ with_operands (operand_of operand ∷ self.old.operands) self.old }
    {
        self.operands[self.top] = operand;
        self.top += 1;
    }

    /// Takes the top operand.
    #[inline(always)]
    pub fn pop(&mut self) -> Operand
        requires { 0 < length self.old.operands }
        ensures taken { self.old ≡ with_operands (operand_of result ∷ self.new.operands) self.new }
        ensures room { used self.new < self.new.room }
    {
        self.top -= 1;
        self.operands[self.top]
    }

    /// Takes the top operand, which is a value.
    #[inline(always)]
    pub fn take(&mut self) -> i32
        requires { IsValueFirst self.old.operands }
        ensures taken { self.old ≡ with_operands (Value result ∷ self.new.operands) self.new }
        ensures room { used self.new < self.new.room }
    {
        match self.pop() {
            Operand::Value(value) => value,
            Operand::Counter(_) => unreachable!(),
        }
    }

    /// Puts a value on top.
    #[inline(always)]
    pub fn give(&mut self, value: i32)
        requires { used self.old < self.old.room }
        ensures { self.new ≡ with_operands (Value value ∷ self.old.operands) self.old }
    {
        self.push(Operand::Value(value));
    }

    /// Calls: takes so many values as the first locals of a new frame, whose other locals are 0.
    pub fn call(&mut self, back: usize, params: usize, locals: usize)
        requires taken { IsSome (arguments params self.old.operands []) }
        requires order { params ≤ locals }
        requires room { used self.old + 2 + locals ≤ self.old.room + params }
        ensures { IfSome (arguments params self.old.operands [])
            (λ taken. self.new ≡ called back (locals - params) taken self.old) }
    {
        let base = self.size;
        let rest = self.top - params;
        make_locals(&self.operands, rest, &mut self.locals, base, params, locals);
        self.marks.push_reserved(Mark {
            back,
            base: self.base,
            floor: self.floor,
        });
        self.base = base;
        self.size = base + locals;
        self.floor = rest;
        self.top = rest;
    }

    /// Goes back to the caller's frame, and tells where it goes on.
    pub fn back(&mut self) -> usize
        requires { 0 < length self.old.callers }
        ensures back { self.old.callers ≡ record
            { back = result; locals = self.new.locals; operands = self.new.operands } ∷
            self.new.callers }
        ensures room { self.new.room ≡ self.old.room }
        ensures free { used self.new + 2 ≤ self.new.room }
    {
        let mark = self.marks.pop().unwrap();
        self.size = self.base;
        self.top = self.floor;
        self.base = mark.base;
        self.floor = mark.floor;
        mark.back
    }

    /// How many calls are in progress.
    pub fn calls(&self) -> usize
        ensures { result ≡ length self.now.callers }
    {
        self.marks.len()
    }

    /// Drops the operands of the innermost frame.
    pub fn drop_operands(&mut self)
        ensures { self.new ≡ with_operands [] self.old }
    {
        self.top = self.floor;
    }

    /// Drops all calls and operands, so that the process's own frame is left.
    pub fn drop_calls(&mut self)
        ensures { self.new ≡ record {
          room = self.old.room;
          locals = own_locals self.old.locals
              self.old.callers;
          operands = [];
          callers = [];
        } }
    {
        while self.calls() > 0 {
            self.back();
        }
        self.drop_operands();
    }
}
