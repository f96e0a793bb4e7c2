//! The law, and an example that meets its premises.

ghost use Rattle.examples_law.specs.RuledExample.{ExampleMeets};

/// A program with a monitor, a wait, a signal and a handler is well formed, its names stand apart,
/// and an image is its code.
pub fn an_example_meets_the_premises()
    ensures { ExampleMeets }
{}
