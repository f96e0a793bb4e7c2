//! Turns by ranks, one at a time.

ghost use Rattle.std.specs.Prelude.{◌≡◌, ◌≢◌, ◌≤◌, ◌<◌, ◌↔◌, [], IfOk, min};
ghost use Rattle.machine_semantics.specs.Image.{Image};
ghost use Rattle.vm_releases.specs.Begin.{script_of};
ghost use Rattle.vm_state.specs.Plan.{IsOf};
ghost use Rattle.vm_stretch.specs.Completed.{last_completed};
ghost use Rattle.vm_runner.specs.Alike.{StayAlike};
ghost use Rattle.vm_runner.specs.Completing.{NoneBetween};
ghost use Rattle.vm_runner.specs.Ends.{IsTurnEnd};
ghost use Rattle.vm_runner.specs.Runnable.{IsRunnable};
ghost use Rattle.vm_runner.specs.Standing.{HasBegun, StandsIn, events_between};
ghost use Rattle.vm_runner.specs.Turn.{Run};

use crate::completing::completed_of;
use crate::span::span;
use crate::turn::{Reach, take_ticks};
use crate::{Machine, Progress, Ranking, Setup};
use out_of_memory::OutOfMemory;
use script::Script;
use std::alloc::Global;
use vm_state::DecodedImage;
use vm_stretch::Completed;
use vm_turn::choose;

impl Machine<Ranking> {
    /// A machine by ranks before tick 0 of the run. It takes all the memory that the run needs; an
    /// error says that memory is short.
    pub fn by_ranks(
        alloc: Global,
        plan: &DecodedImage,
        script: &Script,
    ) -> Result<Machine<Ranking>, OutOfMemory>
        ghost run: { Run }
        requires plan { IsOf run.image plan.now }
        requires script { run.script ≡ script_of script.now }
        requires runnable { IsRunnable run.image run.script }
        ensures start { IfOk result (λ machine. machine.tick ≡ 0) }
        ensures stands { IfOk result (λ machine. StandsIn run.image run.script machine) }
    {
        let setup = Setup::new(alloc, plan, script)?;
        Ok(Machine::new(setup, Ranking::new()))
    }

    /// The rest of a turn that is begun, up to the limit at most: the instruction whose effect came
    /// in its last tick, if there was one.
    #[inline(always)]
    fn finish_turn(&mut self, plan: &DecodedImage, limit: u64) -> Option<Completed>
        ghost run: { Run }
        requires plan { IsOf run.image plan.now }
        requires runnable { IsRunnable run.image run.script }
        requires begun { HasBegun run.image run.script self.old }
        requires limit { limit ≤ run.script.end_tick }
        requires before { self.old.tick < limit }
        ensures passed { self.old.tick < self.new.tick }
        ensures within { self.new.tick ≤ limit }
        ensures stands { StandsIn run.image run.script self.new }
        ensures events { self.new.fired.items ≡
            events_between run.image run.script self.old.tick self.new.tick }
        ensures ends { IsTurnEnd run.image run.script limit self.old.tick self.new.tick }
        ensures last { result ≡ last_completed run.image run.script self.new.tick }
        ensures sole { NoneBetween run.image run.script self.old.tick self.new.tick }
        ensures alike { StayAlike run.image run.script self.old.tick self.new.tick }
    {
        let most = span(&self.agenda, self.tick, limit);
        let Some(who) = choose(plan, &self.board) else {
            self.tick += most;
            return None;
        };
        let completed = completed_of(plan, &self.board, who, most);
        self.tick += take_ticks(
            plan,
            &mut self.board,
            &mut self.agenda,
            &mut self.fired,
            who,
            self.tick,
            most,
            Reach::Turn,
        );
        completed
    }

    /// The start events of the tick and a turn, up to the limit at most: the instruction whose
    /// effect came in its last tick, if there was one.
    #[inline(always)]
    fn take_turn(&mut self, plan: &DecodedImage, script: &Script, limit: u64) -> Option<Completed>
        ghost run: { Run }
        requires plan { IsOf run.image plan.now }
        requires script { run.script ≡ script_of script.now }
        requires runnable { IsRunnable run.image run.script }
        requires stands { StandsIn run.image run.script self.old }
        requires limit { limit ≤ script.now.end }
        requires before { self.old.tick < limit }
        ensures passed { self.old.tick < self.new.tick }
        ensures stands { StandsIn run.image run.script self.new }
        ensures events { self.new.fired.items ≡
            events_between run.image run.script self.old.tick self.new.tick }
        ensures ends { IsTurnEnd run.image run.script limit self.old.tick self.new.tick }
        ensures last { result ≡ last_completed run.image run.script self.new.tick }
        ensures sole { NoneBetween run.image run.script self.old.tick self.new.tick }
    {
        self.begin_turn(plan, script);
        self.finish_turn(plan, limit)
    }

    /// The rest of a turn that is begun, up to the limit at most, which is above the tick and no
    /// later than the end. The events are those of the whole turn, in all ticks of which the same
    /// process is picked, and all stand as they did when it was begun.
    pub fn end_turn(&mut self, plan: &DecodedImage, limit: u64)
        ghost run: { Run }
        requires plan { IsOf run.image plan.now }
        requires runnable { IsRunnable run.image run.script }
        requires begun { HasBegun run.image run.script self.old }
        requires limit { limit ≤ run.script.end_tick }
        requires before { self.old.tick < limit }
        ensures passed { self.old.tick < self.new.tick }
        ensures stands { StandsIn run.image run.script self.new }
        ensures fell { self.new.fired.items ≡
            events_between run.image run.script self.old.tick self.new.tick }
        ensures ends { IsTurnEnd run.image run.script limit self.old.tick self.new.tick }
        ensures within { self.new.tick ≤ limit }
        ensures alike { StayAlike run.image run.script self.old.tick self.new.tick }
    {
        let _ = self.finish_turn(plan, limit);
    }

    /// One turn, up to the limit at most, which is above the tick and no later than the end: the
    /// instruction whose effect came in its last tick, if there was one. In the ticks before none
    /// has its effect.
    pub fn follow(&mut self, plan: &DecodedImage, script: &Script, limit: u64) -> Option<Completed>
        ghost image: { Image }
        requires plan { IsOf image plan.now }
        requires runnable { IsRunnable image (script_of script.now) }
        requires stands { StandsIn image (script_of script.now) self.old }
        requires limit { limit ≤ script.now.end }
        requires before { self.old.tick < limit }
        ensures passed { self.old.tick < self.new.tick }
        ensures stands { StandsIn image (script_of script.now) self.new }
        ensures fell { self.new.fired.items ≡
            events_between image (script_of script.now) self.old.tick self.new.tick }
        ensures ends { IsTurnEnd image (script_of script.now) limit self.old.tick self.new.tick }
        ensures last { result ≡ last_completed image (script_of script.now) self.new.tick }
        ensures sole { NoneBetween image (script_of script.now) self.old.tick self.new.tick }
    {
        self.take_turn(plan, script, limit)
    }

    /// One turn, up to the limit at most; `Done` where the limit is reached.
    #[inline(always)]
    fn go_on(&mut self, plan: &DecodedImage, script: &Script, limit: u64) -> Progress
        ghost image: { Image }
        requires plan { IsOf image plan.now }
        requires runnable { IsRunnable image (script_of script.now) }
        requires stands { StandsIn image (script_of script.now) self.old }
        requires limit { limit ≤ script.now.end }
        ensures done { (result ≡ Progress.Done) ↔ (limit ≤ self.old.tick) }
        ensures stays { result ≡ Progress.Done → self.new ≡ self.old }
        ensures passed { result ≢ Progress.Done → self.old.tick < self.new.tick }
        ensures stands { StandsIn image (script_of script.now) self.new }
        ensures fell { result ≢ Progress.Done → self.new.fired.items ≡
            events_between image (script_of script.now) self.old.tick self.new.tick }
        ensures quiet { result ≡ Progress.Quiet → self.new.fired.items ≡ [] }
        ensures events { result ≡ Progress.Events → self.new.fired.items ≢ [] }
        ensures ends { result ≢ Progress.Done →
            IsTurnEnd image (script_of script.now) limit self.old.tick self.new.tick }
    {
        if self.tick >= limit {
            return Progress::Done;
        }
        let _ = self.take_turn(plan, script, limit);
        self.came_to()
    }

    /// One turn. It does the start events of the tick and the pick, and ends at the least tick
    /// after it that is the end of the script, or is due (a start event, a time-out or a line of
    /// the script falls on it), or before which the process that is picked has the last tick of its
    /// burn or of its instruction.
    pub fn advance(&mut self, plan: &DecodedImage, script: &Script) -> Progress
        ghost image: { Image }
        requires plan { IsOf image plan.now }
        requires runnable { IsRunnable image (script_of script.now) }
        requires stands { StandsIn image (script_of script.now) self.old }
        ensures done { (result ≡ Progress.Done) ↔ (self.old.tick ≡ script.now.end) }
        ensures stays { result ≡ Progress.Done → self.new ≡ self.old }
        ensures passed { result ≢ Progress.Done → self.old.tick < self.new.tick }
        ensures stands { StandsIn image (script_of script.now) self.new }
        ensures fell { result ≢ Progress.Done → self.new.fired.items ≡
            events_between image (script_of script.now) self.old.tick self.new.tick }
        ensures quiet { result ≡ Progress.Quiet → self.new.fired.items ≡ [] }
        ensures events { result ≡ Progress.Events → self.new.fired.items ≢ [] }
        ensures ends { result ≢ Progress.Done →
            IsTurnEnd image (script_of script.now) script.now.end self.old.tick self.new.tick }
    {
        self.go_on(plan, script, script.end())
    }

    /// As `advance`, except that the turn ends at the limit at the latest, which is above the tick.
    pub fn advance_to(&mut self, plan: &DecodedImage, script: &Script, limit: u64) -> Progress
        ghost image: { Image }
        requires plan { IsOf image plan.now }
        requires runnable { IsRunnable image (script_of script.now) }
        requires stands { StandsIn image (script_of script.now) self.old }
        requires limit { self.old.tick < limit }
        ensures done { (result ≡ Progress.Done) ↔ (self.old.tick ≡ script.now.end) }
        ensures stays { result ≡ Progress.Done → self.new ≡ self.old }
        ensures passed { result ≢ Progress.Done → self.old.tick < self.new.tick }
        ensures stands { StandsIn image (script_of script.now) self.new }
        ensures fell { result ≢ Progress.Done → self.new.fired.items ≡
            events_between image (script_of script.now) self.old.tick self.new.tick }
        ensures quiet { result ≡ Progress.Quiet → self.new.fired.items ≡ [] }
        ensures events { result ≡ Progress.Events → self.new.fired.items ≢ [] }
        ensures ends { result ≢ Progress.Done → IsTurnEnd image (script_of script.now)
            (min limit script.now.end) self.old.tick self.new.tick }
    {
        self.go_on(plan, script, limit.min(script.end()))
    }
}
