//! Law: the tick at which a start event is due next, from the lines of a script, the frames of a
//! program and the waits of its processes. So whether one is missing up to a tick is told by one
//! comparison, however far off the tick is.
//!
//! The laws.

ghost use Rattle.std.specs.Prelude.{◌≡◌, ◌↔◌, ◌≤◌, ℕ, suc, Bool, true, List, []};
ghost use Rattle.base.specs.declared.event.Event.{Event};
ghost use Rattle.syntax_tree.specs.Plain.{Program};
ghost use Rattle.source_semantics.specs.Config.{Config};
ghost use Rattle.source_semantics.specs.Starts.{Script, NoneMissing, due};
ghost use Rattle.replay_due_events.specs.Accepts.{Accepts, IsComplete};
ghost use Rattle.replay_due_events.specs.NextDue.{FramesPass, IsNextDue, next_due, next_in_order, is_after};

/// The tick that is told is the least, from the one reached on, at which a start event is missing;
/// where none is told, none ever is.
pub fn next_due_is_least()
    ensures { (g : Program) (s : Script) (c : Config) → FramesPass g →
        IsNextDue g s c (next_due g s c) }
{}

/// No start event due before a tick is missing exactly where the tick that is told is not before
/// it.
pub fn none_missing_is_one_comparison()
    ensures { (g : Program) (s : Script) (c : Config) (t : ℕ) → FramesPass g →
        NoneMissing g s c t ↔ (is_after t (next_due g s c) ≡ true) }
{}

/// No start event due up to a tick, that tick included, is missing exactly where the tick that is
/// told is after it.
pub fn none_due_up_to_is_one_comparison()
    ensures { (g : Program) (s : Script) (c : Config) (t : ℕ) → FramesPass g → c.tick ≤ t
        → (NoneMissing g s c t × due g s c t ≡ []) ↔ (is_after (suc t) (next_due g s c) ≡ true) }
{}

/// Whether a run is complete is that comparison at the script's end.
pub fn complete_is_one_comparison()
    ensures { (g : Program) (s : Script) (c : Config) → FramesPass g →
        IsComplete g s c (is_after s.end_tick (next_due g s c)) }
{}

/// An event that is accepted leads to what the meaning tells, and one that is not leads nowhere:
/// the answer is determined.
pub fn answers_are_determined()
    ensures { (g : Program) (s : Script) (c : Config) (e : Event) (a b : Bool) (x y : Config) →
        Accepts g s c e a x → Accepts g s c e b y → (a ≡ b) × (x ≡ y) }
{
    source_semantics_law::determinism::steps_are_determined();
}

/// The waits may be gone through in any order: as well in textual order as by rank.
pub fn waits_stand_in_any_order()
    ensures { (g : Program) (s : Script) (c : Config) → next_due g s c ≡ next_in_order g s c }
{}
