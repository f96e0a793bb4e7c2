//! An example.

ghost use Rattle.sched_program.specs.Example.{ExampleHasItsTasks, ExampleIsBounded};

/// The tasks of a program with a monitor, a wait, a signal and a handler.
pub fn an_example_has_its_tasks()
    ensures { ExampleHasItsTasks }
{}

/// Its bounds without overhead.
pub fn an_example_has_its_bounds()
    ensures { ExampleIsBounded }
{
    an_example_has_its_tasks();
}
