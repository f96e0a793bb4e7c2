//! Law: where a file that is no image is wrong, field by field.
//!
//! `specs/Fields.antt` is the table of fields: how long each is, and which bytes are wrong in it,
//! with the number of the fault; and the rules over more than one field. `specs/Layout.antt` says
//! which field stands behind which, `specs/Places.antt` that bytes are right up to a place.
//! `specs/FieldsLaw.antt` has the laws: I2 exactly where the bytes end inside a field, and I4 to I8
//! exactly where a field is wrong or a rule is broken, each with nothing wrong before. I1, I3 and
//! I9 are in `image_reader_law`. Nothing here can run.

ghost use Rattle.image_reader_law.specs.FieldsLaw.{EndsInsideAreI2, NumbersForNothingAreI7, OutOfRangeIsI4, WrongFieldsAreTold, WrongHandledNumbersAreI8, WrongKindsAreI6, WrongNamesAreI5};

/// I2 is told exactly where the bytes end inside a field and nothing before it is wrong.
pub fn ends_inside_are_i2()
    ensures { EndsInsideAreI2 }
{}

/// I4 to I8 are told exactly where a field is wrong, or a rule is broken, and nothing before it is.
pub fn wrong_fields_are_told()
    ensures { WrongFieldsAreTold }
{}

/// I4 is told exactly where a number is out of its range, or an event is of no process.
pub fn out_of_range_is_i4()
    ensures { OutOfRangeIsI4 }
{}

/// I5 is told exactly where a name is none, a keyword, or taken, at the name.
pub fn wrong_names_are_i5()
    ensures { WrongNamesAreI5 }
{}

/// I6 is told exactly where a kind, a tag or an opcode is none that there is.
pub fn wrong_kinds_are_i6()
    ensures { WrongKindsAreI6 }
{}

/// I7 is told exactly where a number is not 0 though nothing stands there.
pub fn numbers_for_nothing_are_i7()
    ensures { NumbersForNothingAreI7 }
{}

/// I8 is told exactly where a number of a handler is not above the one before it, or is none that a
/// handler may take.
pub fn wrong_handled_numbers_are_i8()
    ensures { WrongHandledNumbersAreI8 }
{}
