//! A valid image, and images that differ from it in one place.

ghost use Rattle.machine_safety.specs.ValidImages.{ExamplesAre, MoreExamplesAre, SmallestAre};

/// The image is valid, and each of the others has the fault that it should.
pub fn examples()
    ensures { ExamplesAre }
{}

/// So it is with an overhead, with a monitor that nobody enters, and with branches, loops and
/// calls.
pub fn more_examples()
    ensures { MoreExamplesAre }
{}

/// So it is of the smallest programs.
pub fn smallest()
    ensures { SmallestAre }
{}
