//! Laws: what the laws of code, of validity and of runs ask of a program follows from the static
//! rules.
//!
//! `specs/Ready.antt` has what they ask: that the plain tree is well formed, its names apart, its
//! texts sound, its routines numbered, its handlers quiet; and the laws that then ask for nothing
//! but a checked program and its image. Nothing here can run.
//!
//! The laws. These functions do nothing; their contracts are the laws.

ghost use Rattle.built_image_law.specs.Ready.{CheckedProgramsAreReady, CheckedImagesAreMade};

use crate::{handlers_are_quiet, names_are_apart};
use codegen_law::sound_texts::{routines_have_numbers, well_formed_programs_are_sound};
use wellformed_law::checked_programs_are_well_formed;

/// The plain tree of a checked program has all that the laws ask of a program.
pub fn checked_programs_are_ready()
    ensures { CheckedProgramsAreReady }
{
    checked_programs_are_well_formed();
    names_are_apart();
    routines_have_numbers();
    well_formed_programs_are_sound();
    handlers_are_quiet();
}

/// An image that is the code of a checked program, and declares what its text says, is made of it.
pub fn checked_images_are_made()
    ensures { CheckedImagesAreMade }
{
    checked_programs_are_ready();
}
