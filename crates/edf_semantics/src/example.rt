//! A run.

ghost use Rattle.edf_semantics.specs.Example.{two, two_put};
ghost use Rattle.edf_semantics.specs.Run.{events};
ghost use Rattle.machine_safety.specs.SmallImages.{until};
ghost use Rattle.std.specs.Prelude.{◌≡◌};

/// Two processes that meet their deadlines by the earliest one.
pub fn two_processes()
    ensures { events two (until 60) ≡ two_put }
{}
