//! Examples of what the generator makes: the mine pump, a wait that is signalled, and a program
//! with each other form.
//!
//! Promised: what `codegen_spec` says of each program is the code that was written by hand for it, with
//! the same addresses and trees.
//!
//! What is made of three programs. These functions do nothing; their contracts are the laws.

ghost use Rattle.machine_safety.specs.SmallImages.{waiter_and_signaller};
ghost use Rattle.source_semantics_law.specs.Example.{signalled_wait};
ghost use Rattle.examples_law.specs.Mine.{mine, mine_image};
ghost use Rattle.examples_law.specs.Forms.{FormsAreMade};
ghost use Rattle.examples_law.specs.Like.{IsMadeAs};

/// The mine pump: puts, gets, entries, a wait, handlers, a loop over an array.
pub fn the_mine_pump_is_made()
    ensures { IsMadeAs mine mine_image }
{}

/// Two processes, of which one waits and the other signals.
pub fn the_signalled_wait_is_made()
    ensures { IsMadeAs signalled_wait (waiter_and_signaller 0 31) }
{}

/// A loop with an exit, a function, an assertion, an exception, a choice with two arms, an element
/// and an empty condition.
pub fn each_other_form_is_made()
    ensures { FormsAreMade }
{}
