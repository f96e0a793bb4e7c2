//! Law: the names of a program text are short.
//!
//! `specs/Short.antt` says of a program that its name and those of its processes, monitors,
//! conditions, devices and events have at most 63 bytes. So it is with the program of each text.
//! Nothing here can run.
//!
//! The law.

ghost use Rattle.built_image_law.specs.Short.{NamesOfTextsAreShort};

use syntax::tokens_in_order;

/// The name of the program of a text, and those of its processes, monitors, conditions, devices and
/// events, have at most 63 bytes.
pub fn names_of_texts_are_short()
    ensures { NamesOfTextsAreShort }
{
    tokens_in_order();
}
