//! The law.

ghost use Rattle.sched_timing.specs.Defined.{UsesMakeImagesTimed};

/// Declared ranks and ceilings that are the defined ones, blocks that are no less, costs that
/// cover, and bounds that solve the recurrence are what a timed image asks for.
pub fn uses_make_images_timed()
    ensures { UsesMakeImagesTimed }
{}
