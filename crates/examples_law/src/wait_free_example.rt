//! The laws.

ghost use Rattle.examples_law.specs.QuietExample.{ExampleReaches};

/// Of an entry that waits and one that signals, the second alone reaches no wait.
pub fn an_example_reaches()
    ensures { ExampleReaches }
{}
