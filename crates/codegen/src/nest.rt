//! Choices and loops: how their parts begin and end.

ghost use Rattle.std.specs.Prelude.{◌≡◌, ◌+◌, ◌-◌, [], ◌∷◌, OnOk, min, pos, length, slice_get, ℕ, IfOk};
ghost use Rattle.code_spec.specs.Emits.{turns_of};
ghost use Rattle.image_format.specs.Kept.{fork, rep};
ghost use Rattle.image_format.specs.declared.seg.Seg.TheVariants as seg;
ghost use Rattle.machine_isa.specs.declared.instr.Instr.TheVariants as i;
ghost use Rattle.codegen_spec.specs.Told.{fit as fitting};
ghost use Rattle.codegen_spec.specs.Made.{aim as aim_of, aim_one as aim_one_of, aimed, aims, asserting, begun, between, choice, closed, counted, counting, joined, looped, one_arm, open_exit, patched, push as push_of, turning, stepped as stepped_of, turns_told, worth_told};

use crate::code_builder::CodeBuilder;
use crate::errors::tri;
use code_layout::fit_word;
use codegen_branches::{end_arm, end_first, end_second, fit};
use codegen_spec::Lookup;
use image_format::{Seg, Segs};
use machine_isa::Instr;
use out_of_memory::OutOfMemory;
use std::alloc::Global;
use syntax_tree::Constant;

/// How many turns a loop has.
fn turns(low: i32, high: i32) -> i64
    ensures { result ≡ pos (turns_of low high) }
{
    let span = i64::from(high) - i64::from(low);
    if span < 0 { 0 } else { span + 1 }
}

/// The instruction, which goes to the address where it is an exit whose address is not known.
fn aimed(instr: Instr, to: i32) -> Instr
    ensures { result ≡ aimed to instr }
{
    match instr {
        Instr::Exit { to: known } => Instr::Exit {
            to: if known < 0 { to } else { known },
        },
        other => other,
    }
}

/// The choice of an assertion: nothing, or the line that raises.
fn failed(alloc: Global) -> Result<Seg, OutOfMemory>
    ensures { IfOk result (λ it. it ≡ fork [] (seg.Line 1 ∷ [])) }
{
    let mut raise = Segs::new(alloc);
    tri!(raise.push(Seg::Line(1)));
    Seg::fork(alloc, Segs::new(alloc), raise)
}

impl CodeBuilder {
    /// The rest of a turn: its variable goes to the next number.
    pub fn step(&mut self, word: i32) -> Result<(), OutOfMemory>
        ensures { OnOk result (self.new ≡ stepped_of word self.old) }
    {
        tri!(self.push(Instr::LoadLocal { word }));
        tri!(self.push(Instr::Push { value: 1 }));
        tri!(self.push(Instr::Add));
        self.push(Instr::StoreLocal { word })
    }

    /// An exit at this address goes to the other, if there is one whose address is not known.
    fn aim_one(&mut self, at: usize, to: usize)
        ensures { self.new ≡ record (self.old) {
          code = aim_one_of (fitting (pos to)) at
              (slice_get self.old.code at) self.old.code;
        } }
    {
        if at < self.code.len() {
            self.code[at] = aimed(self.code[at], fit(to));
        }
    }

    /// The exits between two addresses go to a third.
    fn aim_all(&mut self, start: usize, end: usize, to: usize)
        ensures { self.new ≡ record (self.old) {
          code = aims (fitting (pos to)) start (end -
              start) self.old.code;
        } }
    {
        for at in start..end {
            self.aim_one(at, to);
        }
    }

    /// The exits from an address on go to the end of the code.
    fn aim(&mut self, start: usize)
        ensures { self.new ≡ aim_of start self.old }
    {
        let end = self.code.len();
        self.aim_all(start, end, end);
    }

    /// A choice begins behind its condition, with the address of its jump and the segments before
    /// it.
    pub fn begin_choice(&mut self) -> Result<Segs, OutOfMemory>
        ensures out { OnOk result (self.new ≡ choice self.old) }
        ensures segs { IfOk result (λ segs. segs ≡ closed self.old) }
    {
        let before = tri!(self.take());
        tri!(self.push(Instr::JumpZero { to: 0 }));
        self.begin();
        Ok(before)
    }

    /// The only arm of a choice ends; it gives the segment of the choice.
    fn only_arm(&mut self, at: usize) -> Result<Seg, OutOfMemory>
        ensures out { let to = fitting (pos (length self.old.code + 1)) in
            OnOk result (self.new ≡ patched (push_of (begun self.old) (i.Jump to)) at
            (i.JumpZero to)) }
        ensures seg { IfOk result (λ seg. seg ≡ fork (closed self.old) []) }
    {
        let first = tri!(self.take());
        tri!(end_arm(&mut self.code, at));
        Seg::fork(self.alloc, first, Segs::new(self.alloc))
    }

    /// The end of a choice with one arm.
    pub fn end_one_arm(&mut self, at: usize, before: Segs) -> Result<(), OutOfMemory>
        ensures { OnOk result (self.new ≡ one_arm at before self.old) }
    {
        let choice = tri!(self.only_arm(at));
        self.join(before, choice)
    }

    /// The second arm begins.
    pub fn begin_second(&mut self, at: usize) -> Result<Segs, OutOfMemory>
        ensures out { OnOk result (self.new ≡ between at self.old) }
        ensures segs { IfOk result (λ segs. segs ≡ closed self.old) }
    {
        let first = tri!(self.take());
        tri!(end_first(&mut self.code, at, 0));
        self.begin();
        Ok(first)
    }

    /// The second arm of a choice ends; it gives the segment of the choice.
    fn second_arm(&mut self, mid: usize, first: Segs) -> Result<Seg, OutOfMemory>
        ensures out { OnOk result (self.new ≡ patched (begun self.old) mid (i.Jump (fitting (pos
            (length self.old.code))))) }
        ensures seg { IfOk result (λ seg. seg ≡ fork first (closed self.old)) }
    {
        let second = tri!(self.take());
        end_second(&mut self.code, mid);
        Seg::fork(self.alloc, first, second)
    }

    /// The end of a choice with two arms; the first one's jump stands at `mid`.
    pub fn end_two_arms(&mut self, mid: usize, before: Segs, first: Segs) -> Result<(), OutOfMemory>
        ensures { OnOk result (self.new ≡ joined (patched self.old mid (i.Jump (fitting (pos
            (length self.old.code))))) before (fork first (closed self.old))) }
    {
        let choice = tri!(self.second_arm(mid, first));
        self.join(before, choice)
    }

    /// The variable of a loop gets its first number, and its word is taken.
    fn first_number(&mut self, low: i32) -> Result<(), OutOfMemory>
        ensures { OnOk result (self.new ≡ counted (counting low self.old)) }
    {
        let word = fit_word(self.word);
        tri!(self.push(Instr::Push { value: low }));
        tri!(self.push(Instr::StoreLocal { word }));
        self.count();
        Ok(())
    }

    /// A loop begins: its variable gets its first number, and the segments before it are taken.
    pub fn begin_loop(&mut self, low: i32, turns: i64) -> Result<Segs, OutOfMemory>
        ensures out { OnOk result ((n : ℕ) → turns ≡ pos n → self.new ≡ turning n (counting low
            self.old)) }
        ensures segs { IfOk result (λ segs. segs ≡ closed (counting low self.old)) }
    {
        let turns = i32::try_from(turns).unwrap_or(i32::MAX);
        tri!(self.first_number(low));
        let before = tri!(self.take());
        tri!(self.push(Instr::Repeats { turns }));
        self.begin();
        Ok(before)
    }

    /// A loop with these bounds begins: how many turns it has, and the segments before it.
    pub fn begin_turns<L: Lookup>(
        &mut self,
        names: &L,
        low: &Constant,
        high: &Constant,
    ) -> Result<(i64, Segs), OutOfMemory>
        ensures turns { let g = L.program names.now in
            IfOk result (λ h. h.0 ≡ pos (turns_told g low.now high.now)) }
        ensures out { let g = L.program names.now in
            OnOk result (self.new ≡ turning (turns_told g low.now high.now) (counting (worth_told
            g low.now) self.old)) }
        ensures segs { let g = L.program names.now in
            IfOk result (λ h. h.1 ≡ closed (counting (worth_told g low.now) self.old)) }
    {
        let low = names.value(low);
        let turns = turns(low, names.value(high));
        let before = tri!(self.begin_loop(low, turns));
        Ok((turns, before))
    }

    /// The turns of a loop end, whose body began at an address; it gives the segment of the loop.
    fn repeated(&mut self, turns: i64, start: usize) -> Result<Seg, OutOfMemory>
        ensures out { OnOk result (self.new ≡ aim_of start (push_of (begun self.old) (i.Repeat
            (fitting (pos start))))) }
        ensures seg { IfOk result (λ seg. (n : ℕ) → turns ≡ pos n → seg ≡ rep (min n 4294967295)
            (closed self.old)) }
    {
        let turns = u32::try_from(turns).unwrap_or(u32::MAX);
        let body = tri!(self.take());
        tri!(self.push(Instr::Repeat { to: fit(start) }));
        self.aim(start);
        Seg::rep(self.alloc, turns, body)
    }

    /// The end of a loop, whose body is made with the rest of the turn.
    pub fn end_loop(&mut self, turns: i64, start: usize, before: Segs) -> Result<(), OutOfMemory>
        ensures { OnOk result ((n : ℕ) → turns ≡ pos n → self.new ≡ looped n start before
            self.old) }
    {
        let repeated = tri!(self.repeated(turns, start));
        self.join(before, repeated)
    }

    /// An exit from the loop around, behind its condition.
    pub fn exit(&mut self) -> Result<(), OutOfMemory>
        ensures { OnOk result (self.new ≡ joined (push_of self.old open_exit) (closed self.old)
            seg.Exit) }
    {
        let before = tri!(self.take());
        tri!(self.push(Instr::Exit { to: -1 }));
        self.join(before, Seg::Exit)
    }

    /// The instructions of an assertion behind its condition.
    fn failing(&mut self) -> Result<(), OutOfMemory>
        ensures { let at = length self.old.code in
            OnOk result (self.new ≡ push_of (push_of (push_of self.old
            (i.JumpZero (fitting (pos (at + 2))))) (i.Jump (fitting (pos (at + 3)))))
            (i.Raise (pos 4))) }
    {
        let at = self.code.len();
        tri!(self.push(Instr::JumpZero { to: fit(at + 2) }));
        tri!(self.push(Instr::Jump { to: fit(at + 3) }));
        self.push(Instr::Raise { number: 4 })
    }

    /// An assertion behind its condition: where it is false, exception 4 is raised.
    pub fn assertion(&mut self) -> Result<(), OutOfMemory>
        ensures { OnOk result (self.new ≡ asserting self.old) }
    {
        let before = tri!(self.take());
        tri!(self.failing());
        let choice = tri!(failed(self.alloc));
        self.join(before, choice)
    }
}
