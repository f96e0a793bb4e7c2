//! Laws of the meaning.

ghost use Rattle.std.specs.Prelude.{◌≡◌, ◌≤◌, ◌+◌, ℕ, List};
ghost use Rattle.base.specs.declared.event.Event.{Event};
ghost use Rattle.syntax_tree.specs.Plain.{Name, Program, Process};
ghost use Rattle.source_semantics.specs.Names.{routine_count};
ghost use Rattle.source_semantics.specs.Config.{Config};
ghost use Rattle.source_semantics.specs.Next.{calls_to, Next};
ghost use Rattle.source_semantics.specs.Starts.{Script};
ghost use Rattle.source_semantics.specs.Source.{Step, Stays, acts};
ghost use Rattle.source_semantics.specs.Nesting.{Levels, Agree};

/// From a configuration an event leads to at most one configuration.
pub fn steps_are_determined()
    ensures { (g : Program) (s : Script) (c : Config) (e : Event) (a b : Config) → Step g s c e a →
        Step g s c e b → a ≡ b }
{}

/// Where no routine reaches itself, what calls come to does not depend on the depth, once that is
/// the number of routines.
pub fn values_are_defined()
    ensures { (g : Program) (p : Process) (level : Name → ℕ) → Levels g p level → (more : ℕ)
        → Agree g p level (routine_count g) (calls_to g p (routine_count g))
        (calls_to g p (routine_count g + more)) }
{}

/// An event that is allowed is not before the tick reached.
pub fn ticks_do_not_fall(e: &base::Event)
    ensures { (g : Program) (s : Script) (c new : Config) → Step g s c e.now new → c.tick ≤
        e.now.tick }
{}

/// What a process does leaves every other process as it is, but for waking it.
pub fn other_processes_stay()
    ensures { (g : Program) (s : Script) (c : Config) (t k : ℕ) (n : Next) (j : ℕ) → (j ≡ k → ⊥) →
        Stays j c.jobs (acts g s c t k n).config.jobs }
{}
