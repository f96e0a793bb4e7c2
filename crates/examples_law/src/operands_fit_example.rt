//! The laws.

ghost use Rattle.codegen_law.specs.Fitting.{ExampleFits};

/// A program meets the premises.
pub fn an_example_meets_the_premises()
    ensures { ExampleFits }
{}
