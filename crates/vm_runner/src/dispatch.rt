//! By what a machine chooses who runs.

ghost use Rattle.std.specs.Prelude.{◌≡◌, ◌<◌, ◌+◌, ◌^◌, ℕ, None, vec_len};
ghost use Rattle.machine_semantics.specs.Image.{Image, Script};
ghost use Rattle.vm_runner.specs.Course.{Behaviour, GoesBySteps, IsStep, begun, course};
ghost use Rattle.vm_runner.specs.Dispatching.{At, Before, Begun, Between, GoesOn, HasGone, InRow};
ghost use Rattle.vm_runner.specs.Dispatching.{IsAgain, Phase, Plans, Rests, Sees, Starting, Ticks};

use base::Event;
use vm_state::{DecodedImage, MachineState};

/// A dispatch: in each tick of a run it chooses one of the processes that are ready.
///
/// `behaviour` says how the run of an image under a script goes by it, `CanRun` which runs it
/// takes, and `Knows` what it has to know as a run goes on (`specs/Dispatching.antt`). No call
/// takes memory.
pub trait Dispatch {
    ghost behaviour: { Image → Script → Behaviour };

    ghost CanRun: { Image → Script → Type 0 };

    ghost Knows: { Image → Script → Phase → Self → Type 0 };

    /// Notes what it has to know of the board before the start events of a tick.
    fn before_starts(&mut self, board: &MachineState)
        requires sees { (at : At) × Sees behaviour Knows Before board.now self.old at }
        ensures { (at : At) → Sees behaviour Knows Before board.now self.old at →
            Knows at.image at.script (Starting at.tick) self.new };

    /// Notes what the start events of a tick changed.
    fn after_starts(&mut self, board: &MachineState, tick: u64)
        requires sees { (at : At) × Sees behaviour Knows Starting board.now self.old at }
        requires tick { tick < 2 ^ 63 }
        ensures { (at : At) → at.tick ≡ tick → Sees behaviour Knows Starting board.now self.old at →
            Knows at.image at.script (Begun tick) self.new };

    /// The process that is chosen after the start events of a tick, and has its turn.
    fn choose(&mut self, plan: &DecodedImage, board: &MachineState) -> Option<usize>
        requires sees { (at : At) × Plans behaviour Knows Begun plan.now board.now self.old at }
        ensures chosen { (at : At) → Plans behaviour Knows Begun plan.now board.now self.old at →
            result ≡ (course behaviour at.image at.script).chosen at.tick }
        ensures row { (at : At) → Plans behaviour Knows Begun plan.now board.now self.old at →
            Knows at.image at.script (InRow at.tick) self.new }
        ensures idle { (at : At) → Plans behaviour Knows Begun plan.now board.now self.old at →
            CanRun at.image at.script → result ≡ None → (n : ℕ) →
            IsStep (course behaviour at.image at.script) at.tick n →
            (course behaviour at.image at.script).state (at.tick + n) ≡
            begun (course behaviour at.image at.script) at.tick →
            Knows at.image at.script (Between (at.tick + n)) self.new };

    /// The process that is chosen at a tick at which nothing is due, and has a row.
    fn first(&mut self, plan: &DecodedImage, board: &MachineState) -> Option<usize>
        requires rests { (at : At) × Rests behaviour Knows plan.now board.now self.old at }
        ensures chosen { (at : At) → Rests behaviour Knows plan.now board.now self.old at →
            result ≡ (course behaviour at.image at.script).chosen at.tick }
        ensures row { (at : At) → Rests behaviour Knows plan.now board.now self.old at →
            Knows at.image at.script (InRow at.tick) self.new }
        ensures idle { (at : At) → Rests behaviour Knows plan.now board.now self.old at →
            CanRun at.image at.script → result ≡ None → (n : ℕ) →
            IsStep (course behaviour at.image at.script) at.tick n →
            (course behaviour at.image at.script).state (at.tick + n) ≡
            (course behaviour at.image at.script).state at.tick →
            Knows at.image at.script (Between (at.tick + n)) self.new };

    /// Notes how all stand after a row of the process, in which these events fell.
    fn follow(&mut self, plan: &DecodedImage, board: &MachineState, who: usize, events: &[Event])
        requires who { who < vec_len board.now.cells }
        requires gone { (run : Ticks) ×
            HasGone behaviour Knows plan.now board.now who events.now self.old run }
        ensures { (run : Ticks) →
            HasGone behaviour Knows plan.now board.now who events.now self.old run →
            CanRun run.image run.script →
            Knows run.image run.script (Between (run.tick + run.count)) self.new };

    /// The law: such runs go by turns and rows; a process that goes on as it stood is chosen again,
    /// and what is known of its row stays known; and what is known between two rows is known before
    /// the start events of a tick.
    fn goes_by_steps()
        ensures steps { (image : Image) (script : Script) → CanRun image script →
            GoesBySteps (course behaviour image script) }
        ensures again { (run : Ticks) (who : ℕ) → CanRun run.image run.script →
            GoesOn (course behaviour run.image run.script) run.tick run.count who →
            IsAgain behaviour Knows run who }
        ensures rests { (image : Image) (script : Script) (t : ℕ) (d : Self) →
            Knows image script (Between t) d → Knows image script (Before t) d };
}
