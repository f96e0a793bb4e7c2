//! An example.

ghost use Rattle.code_cost_spec.specs.Example.{ExampleIs};

/// The costs, stays, stacks and the number of instructions of a program with a monitor, a wait, a
/// signal and a handler.
pub fn an_example_has_its_costs()
    ensures { ExampleIs }
{}
