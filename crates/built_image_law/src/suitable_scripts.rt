//! Laws: a script for the names of a program suits the image of the program.
//!
//! `specs/Suits.antt` has them: the frame that stands at the name of an event is that of the
//! process that the event releases, and so each script that was read for the names of a well-formed
//! program suits its image (`Suits` of `vm_law`), with its lines in order to the meaning of programs,
//! too. Nothing here can run.
//!
//! The laws.

ghost use Rattle.built_image_law.specs.Suits.{NamesHaveFrames, ScriptsAreInOrder, ScriptsForTheNamesSuit};

use vm_law::suitable_scripts::scripts_suit;

/// Each event has the frame of the process that it releases.
pub fn names_have_frames()
    ensures { NamesHaveFrames }
{}

/// A script for the names of a well-formed program suits its image.
pub fn scripts_for_the_names_suit()
    ensures { ScriptsForTheNamesSuit }
{
    names_have_frames();
    scripts_suit();
}

/// The lines of a script, as the meaning of programs has them, are in order.
pub fn scripts_are_in_order()
    ensures { ScriptsAreInOrder }
{}
