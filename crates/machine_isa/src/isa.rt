//! Laws of the bytes, with nothing to run.

ghost use Rattle.machine_isa.specs.Bytes.{AreDistinct};

/// No two instructions have the same bytes.
pub fn instructions_are_distinct()
    ensures { AreDistinct }
{}
