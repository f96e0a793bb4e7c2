//! Laws: an image that is the code of a program, and declares what the program's tree says, is
//! valid.
//!
//! `specs/Declared.antt` says what the image declares, `specs/Whole.antt` has the premise
//! (`IsMade`) and the laws: six of the seven parts of validity hold of it, and with operands in
//! their ranges it is valid. An example meets the premise. Nothing here can run.
//!
//! The laws.

ghost use Rattle.code_measures.specs.Whole.{MadeImagesKeepSixParts, MadeImagesAreValid, CodeHasItsLength, MeetingIsMade};

/// Of the image of a program no part fails of these: the code is of its trees, handlers, costs,
/// sizes, ranks, bounds.
pub fn made_images_keep_six_parts()
    ensures { MadeImagesKeepSixParts }
{}

/// It is valid where its operands are in their ranges.
pub fn made_images_are_valid()
    ensures { MadeImagesAreValid }
{}

/// The code of a program has as many instructions as its text says.
pub fn code_has_its_length()
    ensures { CodeHasItsLength }
{}

/// A program with a monitor, a wait, a signal and a handler, and its image, meet all premises.
pub fn an_example_is_made()
    ensures { MeetingIsMade }
{}
