//! The laws.

ghost use Rattle.examples_law.specs.SoundExample.{ExampleIsSound};

/// A program with a monitor, a wait, a signal and a handler is sound, and its entries have the two
/// numbers.
pub fn an_example_is_sound()
    ensures { ExampleIsSound }
{}
