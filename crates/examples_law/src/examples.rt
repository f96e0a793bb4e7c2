//! Small programs that are well formed, and small programs that are not.
//!
//! Definitions: `specs/Examples.antt` has programs that are not, and programs with a deadline; the
//! others stand with the logs of the source meaning. Promised: each program is, or is not, well
//! formed, as its function says.
//!
//! Programs that are well formed, and programs that are not.

ghost use Rattle.source_semantics_law.specs.Example.{one_put, handled_range, signalled_wait};
ghost use Rattle.examples_law.specs.Examples.{put_inwards, undeclared, endless, circular, hurrying};
ghost use Rattle.static_semantics.specs.WellFormed.{IsWellFormed};

/// One process that puts a number is well formed.
pub fn one_put_is_well_formed()
    ensures { IsWellFormed one_put }
{}

/// A process with a variable of a subrange and a handler is well formed.
pub fn handled_range_is_well_formed()
    ensures { IsWellFormed handled_range }
{}

/// Two processes with a monitor, in which one waits and the other signals, are well formed.
pub fn signalled_wait_is_well_formed()
    ensures { IsWellFormed signalled_wait }
{}

/// A put to an in device is not well formed.
pub fn put_inwards_is_not()
    ensures { ¬ IsWellFormed put_inwards }
{}

/// A name that is declared nowhere is not well formed.
pub fn undeclared_is_not()
    ensures { ¬ IsWellFormed undeclared }
{}

/// A loop up to the greatest word is not well formed.
pub fn endless_is_not()
    ensures { ¬ IsWellFormed endless }
{}

/// A procedure that calls itself is not well formed.
pub fn circular_is_not()
    ensures { ¬ IsWellFormed circular }
{}

/// A deadline below the frame is well formed.
pub fn early_deadline_is_well_formed()
    ensures { IsWellFormed (hurrying 50) }
{}

/// A deadline above the frame is not well formed.
pub fn late_deadline_is_not()
    ensures { ¬ IsWellFormed (hurrying 101) }
{}

/// A deadline below 10 is not well formed.
pub fn hasty_deadline_is_not()
    ensures { ¬ IsWellFormed (hurrying 9) }
{}
