//! The laws.

ghost use Rattle.codegen_law.specs.Whole.{ExampleHolds};

/// A program meets the premises, and an image written by hand holds what is made of it.
pub fn an_example_holds()
    ensures { ExampleHolds }
{}
