//! A program with a monitor, a wait, a signal and a handler, whose image meets the premises of the
//! law.

ghost use Rattle.code_lifting.specs.Example.{MeetingIsImage, MeetingIsRight, MeetingRuns};

/// The image is that of the program.
pub fn meeting_is_image()
    ensures { MeetingIsImage }
{}

/// The code of its processes is right.
pub fn meeting_is_right()
    ensures { MeetingIsRight }
{}

/// Every run of the image is a run of the program.
pub fn meeting_runs()
    ensures { MeetingRuns }
{}
