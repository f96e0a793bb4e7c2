//! Programs with their images: one with a monitor, a wait, a signal and a handler, and one with a
//! monitor's word.

ghost use Rattle.examples_law.specs.Adding.{AddingIsImage, AddingIsRight, LowCeilingIsNone};
ghost use Rattle.examples_law.specs.Headline.{MeetingIsProper, MeetingIsRightAndInTime, MeetingIsWellFormed};

/// The program is well formed, and its names stand apart.
pub fn meeting_is_well_formed()
    ensures { MeetingIsWellFormed }
{}

/// The program keeps to the static rules where its code stands.
pub fn meeting_is_proper()
    ensures { MeetingIsProper }
{}

/// Every run of its image, over every script with lines in order, is a run of the program and in
/// time.
pub fn meeting_is_right_and_in_time()
    ensures { MeetingIsRightAndInTime }
{}

/// The image with a monitor's word is that of its program.
pub fn adding_is_image()
    ensures { AddingIsImage }
{}

/// Its code is right.
pub fn adding_is_right()
    ensures { AddingIsRight }
{}

/// With another ceiling it is no image of the program.
pub fn low_ceiling_is_none()
    ensures { LowCeilingIsNone }
{}
