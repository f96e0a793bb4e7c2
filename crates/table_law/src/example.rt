//! An example.

ghost use Rattle.table_law.specs.Example.{ExampleHasItsRanks, ExampleHasItsTasks, ExampleIsBounded};

/// The ranks and ceilings of a table of three lines with two monitors.
pub fn an_example_has_its_ranks()
    ensures { ExampleHasItsRanks }
{}

/// Its tasks.
pub fn an_example_has_its_tasks()
    ensures { ExampleHasItsTasks }
{}

/// Its bounds without overhead.
pub fn an_example_has_its_bounds()
    ensures { ExampleIsBounded }
{
    an_example_has_its_tasks();
}
