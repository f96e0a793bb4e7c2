//! Law: which line of the text of an image is faulty, and why.
//!
//! `specs/Notes.antt` is the table of what is asked of the numbers, names and lists of a line, with
//! the fault that its image would have; `specs/ImagesLaw.antt` ties it to the fields of images.
//! `specs/Layout.antt` says which words, names and numbers stand in a line, and which line behind
//! which; `specs/Places.antt` which lines have their form, and which of them are right.
//! `specs/LinesLaw.antt` has the laws: behind right lines, A1 exactly where a line has no form of
//! its place, and A2 exactly where it has, and something of it is wrong; A3 exactly where the text
//! is too long. Nothing here can run.

ghost use Rattle.asm_law.specs.ImagesLaw.{NotesAreThoseOfImages};
ghost use Rattle.asm_law.specs.LinesLaw.{LacksOfFormAreA1, LongTextsAreA3, MissingLinesLackForm, NoOtherFaults, NothingIsBehindTheEnd, NothingStandsForAProcess, RightTextsHaveNoFault, WrongLinesAreA2, WrongNotesAreOfImages};

/// A1 is told exactly at the first line that is not right, where it has no form of its place.
pub fn lacks_of_form_are_a1()
    ensures { LacksOfFormAreA1 }
{}

/// A2 is told exactly at the first line that is not right, where it has its form and something of
/// it is wrong.
pub fn wrong_lines_are_a2()
    ensures { WrongLinesAreA2 }
{}

/// A3 is told exactly where the text is too long.
pub fn long_texts_are_a3()
    ensures { LongTextsAreA3 }
{}

/// There are no other faults of texts.
pub fn no_other_faults()
    ensures { NoOtherFaults }
{}

/// What is wrong in a line is I4, I5 or I8 in an image.
pub fn wrong_notes_are_of_images()
    ensures { WrongNotesAreOfImages }
{}

/// Where there is no process, or an event is of none, no line behind the processes is right.
pub fn nothing_stands_for_a_process()
    ensures { NothingStandsForAProcess }
{}

/// What is wrong of a number, a name or a list in a line is what is wrong in an image's field.
pub fn notes_are_those_of_images()
    ensures { NotesAreThoseOfImages }
{}

/// A text has no fault exactly where it is short enough and all its lines are right, up to its end.
pub fn right_texts_have_no_fault()
    ensures { RightTextsHaveNoFault }
{}

/// Bytes behind the last line have no form.
pub fn nothing_is_behind_the_end()
    ensures { NothingIsBehindTheEnd }
{}

/// A line that is missing at the end of the bytes has no form.
pub fn missing_lines_lack_form()
    ensures { MissingLinesLackForm }
{}
