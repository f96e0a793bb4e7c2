//! Steps of the computation: what pieces of code come to together.

ghost use Rattle.std.specs.Prelude.{◌≡◌, ◌≤◌, ◌<◌, ◌+◌, ◌*◌, ◌&&◌, IfSome, Some, map, min, nat_eq, nat_lt, slice_get};
ghost use Rattle.loader_code.specs.Steps.{step};
ghost use Rattle.loader_code.specs.TreesTold.{EndsAt, IsHeld, Reaches, found_of, known_of, told};
ghost use Rattle.base.specs.Capped.{cap};
ghost use Rattle.valid_image.specs.Found.{amount, arms, call, guard, is_call as calls, is_exit as exits, is_jump as jumps, is_jump_zero as jumps_at_zero, is_reenter as reenters, is_repeat as repeats, is_repeats as begins, limit_at as limits, loop as loops, wait};
ghost use Rattle.valid_image_law.specs.Held.{before, held, hold};

use crate::instructions::{StackEffect, effect_of, instr_at, results};
use crate::known::{CodeCost, RoutineCost, TOO_DEEP};
use crate::seams::{
    is_call, is_exit, is_jump, is_jump_zero, is_reenter, is_repeat, is_repeats, limit_at,
};
use base::{Cost, OVER, cap_add};
use machine_isa::{Instr, ticks};

/// A height as a depth, held at 4,097.
fn depth_of(height: usize) -> u32
    ensures { result ≡ min height 4097 }
{
    height.min(TOO_DEEP as usize) as u32
}

/// So many times a number of ticks, capped.
fn cap_times(turns: u32, ticks: u64) -> u64
    requires { ticks ≤ 1000000004 }
    ensures { result ≡ cap (turns * ticks) }
{
    (u64::from(turns) * ticks).min(OVER)
}

impl CodeCost {
    /// Nothing yet, at an address and a height.
    pub fn nothing(at: usize, height: usize) -> CodeCost
        ensures next { result.next ≡ at }
        ensures value { found_of result ≡ record
            { height = height; cost = amount 0 0 0; depth = 0 } }
        ensures held { IsHeld result }
    {
        CodeCost {
            next: at,
            height,
            cost: Cost {
                run: 0,
                susp: 0,
                waits: 0,
            },
            depth: 0,
        }
    }

    /// This piece of code and then another.
    pub fn then(&self, later: &CodeCost) -> CodeCost
        requires first { IsHeld self.now }
        requires second { IsHeld later.now }
        ensures next { result.next ≡ later.now.next }
        ensures value { found_of result ≡ held (before (found_of self.now) (found_of later.now)) }
        ensures held { IsHeld result }
    {
        CodeCost {
            next: later.next,
            height: later.height,
            cost: Cost {
                run: cap_add(self.cost.run, later.cost.run),
                susp: cap_add(self.cost.susp, later.cost.susp),
                waits: cap_add(self.cost.waits, later.cost.waits),
            },
            depth: self.depth.max(later.depth),
        }
    }
}

/// One instruction of a Line.
pub fn instr_found(code: &[Instr], at: usize, height: usize) -> Option<CodeCost>
    requires { height ≤ at }
    ensures value { told result ≡ hold (step (slice_get code.now at) height) }
    ensures ends { IfSome result (EndsAt code.now (at + 1)) }
{
    let instr = instr_at(code, at)?;
    let StackEffect { takes, gives } = effect_of(instr)?;
    let height = height.checked_sub(takes)? + gives;
    Some(CodeCost {
        next: at + 1,
        height,
        cost: Cost {
            run: u64::from(ticks(&instr)),
            susp: 0,
            waits: 0,
        },
        depth: depth_of(height),
    })
}

/// A choice: JZ, the first arm, JMP, the second arm.
pub fn forked(
    jump_zero: Instr,
    jump: Instr,
    first: &CodeCost,
    second: &CodeCost,
) -> Option<CodeCost>
    requires first_held { IsHeld first.now }
    requires second_held { IsHeld second.now }
    requires room { first.now.next < second.now.next }
    ensures value { told result ≡ hold (guard
        (jumps_at_zero (first.now.next + 1) (Some jump_zero) && jumps second.now.next (Some jump))
        (arms (Some (found_of first.now)) (Some (found_of second.now)))) }
    ensures ends { IfSome result (Reaches second.now.next second.now.height) }
{
    if !is_jump_zero(Some(jump_zero), first.next + 1) || !is_jump(Some(jump), second.next) {
        return None;
    }
    if first.height != second.height {
        return None;
    }
    Some(CodeCost {
        next: second.next,
        height: first.height,
        cost: Cost {
            run: cap_add(3, first.cost.run).max(cap_add(2, second.cost.run)),
            susp: first.cost.susp.max(second.cost.susp),
            waits: first.cost.waits.max(second.cost.waits),
        },
        depth: first.depth.max(second.depth),
    })
}

/// A loop: REPS, a turn from the address on, REP.
pub fn repeated(
    turns: u32,
    first: Instr,
    last: Instr,
    start: usize,
    height: usize,
    turn: &CodeCost,
) -> Option<CodeCost>
    requires held { IsHeld turn.now }
    requires room { turn.now.next + 1 ≤ usize.MAX }
    ensures value { told result ≡ hold (guard
        (nat_lt 0 turns && (begins turns (Some first) && repeats start (Some last)))
        (loops turns height (Some (found_of turn.now)))) }
    ensures ends { IfSome result (Reaches (turn.now.next + 1) height) }
{
    if turns == 0 || !is_repeats(Some(first), turns as usize) || !is_repeat(Some(last), start) {
        return None;
    }
    if turn.height != 0 {
        return None;
    }
    Some(CodeCost {
        next: turn.next + 1,
        height,
        cost: Cost {
            run: cap_add(2, cap_times(turns, turn.cost.run + 3)),
            susp: cap_times(turns, turn.cost.susp),
            waits: cap_times(turns, turn.cost.waits),
        },
        depth: (depth_of(height) + 1 + turn.depth).min(TOO_DEEP),
    })
}

/// The call of a routine, with what is known of it.
pub fn called(
    known: &[RoutineCost],
    routine: u16,
    instr: Instr,
    next: usize,
    height: usize,
) -> Option<CodeCost>
    requires { height + 1 ≤ next }
    ensures value { told result ≡ hold (guard (calls routine (Some instr))
        (call height (slice_get (map known_of known.now) routine))) }
    ensures ends { IfSome result (λ f. (f.next ≡ next) × (f.height ≤ next) × IsHeld f) }
{
    if !is_call(Some(instr), routine as usize) {
        return None;
    }
    let known = known_at(known, routine as usize)?;
    let below = height.checked_sub(known.params as usize)?;
    let height = below + results(known.result);
    let inside = u64::from(depth_of(below)) + 2 + u64::from(known.locals) + u64::from(known.depth);
    Some(CodeCost {
        next,
        height,
        cost: Cost {
            run: cap_add(6, known.cost.run.min(OVER)),
            susp: known.cost.susp.min(OVER),
            waits: known.cost.waits.min(OVER),
        },
        depth: depth_of(height).max(inside.min(u64::from(TOO_DEEP)) as u32),
    })
}

fn known_at(known: &[RoutineCost], routine: usize) -> Option<RoutineCost>
    ensures { result ≡ slice_get known.now routine }
{
    known.get(routine).copied()
}

/// WAIT, and REENT of the monitor held.
pub fn waited(
    monitor: Option<u16>,
    first: Instr,
    second: Instr,
    next: usize,
    height: usize,
) -> Option<CodeCost>
    ensures value { told result ≡ hold (guard (reenters monitor (Some second))
        (wait height (limits (Some first)))) }
    ensures ends { IfSome result (Reaches next height) }
{
    if !is_reenter(Some(second), monitor) {
        return None;
    }
    let limit = u64::from(limit_at(Some(first))?);
    Some(CodeCost {
        next,
        height,
        cost: Cost {
            run: 10,
            susp: limit.min(OVER),
            waits: 1,
        },
        depth: 0,
    })
}

/// EXIT to the end of the innermost loop.
pub fn exited(out: Option<usize>, instr: Instr, next: usize, height: usize) -> Option<CodeCost>
    ensures value { told result ≡ hold (guard (nat_eq height 1 && exits out (Some instr))
        (Some (record { height = 0; cost = amount 3 0 0; depth = 0 }))) }
    ensures ends { IfSome result (Reaches next 0) }
{
    if height != 1 || !is_exit(Some(instr), out) {
        return None;
    }
    Some(CodeCost {
        next,
        height: 0,
        cost: Cost {
            run: 3,
            susp: 0,
            waits: 0,
        },
        depth: 0,
    })
}
