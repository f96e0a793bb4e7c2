//! The law of the generator's code. These functions do nothing; their contracts are the laws.

ghost use Rattle.codegen_law.specs.Example.{ExampleFits};

/// A text with a loop, an exit, a choice, a checked store and a put keeps to the law's premise.
pub fn an_example_fits()
    ensures { ExampleFits }
{}
