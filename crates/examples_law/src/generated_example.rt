//! The laws.

ghost use Rattle.examples_law.specs.Generated.{ExampleIsGenerated};

/// A program meets the premises, and an image written by hand holds what is made of it.
pub fn an_example_is_generated()
    ensures { ExampleIsGenerated }
{}
