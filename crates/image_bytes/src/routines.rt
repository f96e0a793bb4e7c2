//! Routines.

ghost use Rattle.std.specs.Prelude.{◌≡◌, true};
ghost use Rattle.image.specs.Raw.{routine_of};
ghost use Rattle.image_bytes.specs.Reads.{RoutineIsRead};
ghost use Rattle.image_bytes.specs.Fields.{five_fields, owner_fields, routine_fields};

use image::RawRoutine;

/// Whose it is, its parameters and locals, and whether it has a result.
fn owner_fits(routine: &RawRoutine)
    ensures { owner_fields.is (
      routine.now.kind,
      (routine.now.owner, (routine.now.params, (routine.now.locals, routine.now.result))),
    ) ≡ true }
{
    let _kind = routine.kind;
    let _owner = routine.owner;
    let _params = routine.params;
    let _locals = routine.locals;
}

/// Where its code stands, and what it takes of time.
fn cost_fits(routine: &RawRoutine)
    ensures { five_fields.is (
      routine.now.start,
      (routine.now.run, (routine.now.susp, (routine.now.waits, routine.now.stay))),
    ) ≡ true }
{
    let _start = routine.start;
    let _run = routine.run;
    let _susp = routine.susp;
    let _waits = routine.waits;
    let _stay = routine.stay;
}

/// The bytes of a routine are read as it is. The call does nothing.
pub fn routine_is_read(routine: &RawRoutine)
    ensures { RoutineIsRead (routine_of routine.now) }
{
    owner_fits(routine);
    cost_fits(routine);
    routine.tree.can_be_read();
}
