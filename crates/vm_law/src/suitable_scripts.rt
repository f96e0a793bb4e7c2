//! Law: a script that was read for the names of an image suits the image.
//!
//! `read_script` of `script` gives a script for names (`IsScript`); a run asks that a script
//! suits an image (`specs/Suits.antt`). By the laws of `specs/ScriptSuits.antt` the first gives the second
//! where the frames that stand at the names' events are those of the image's processes, and so it
//! is with the names of each image that a file holds. Nothing here can run.
//!
//! The laws.

ghost use Rattle.vm_law.specs.ScriptSuits.{ScriptsForImagesReadSuit, ScriptsSuit};

/// A script that was read for names whose frames are those of the image is in order, respects the
/// frames of the image's processes, and ends by tick 1,000,000,000. So it is with a script that was
/// read for the names of an image that a file holds.
pub fn scripts_suit()
    ensures framed { ScriptsSuit }
    ensures held { ScriptsForImagesReadSuit }
{}
