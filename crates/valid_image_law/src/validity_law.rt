//! Law: every valid image, whoever made it, is never stuck, within its sizes, keeps the processes
//! that are inside monitors apart and ready, and over each script that respects its frames is in
//! time.
//!
//! What a valid image is stands in `valid_image`. Calls of `valid_law` state the laws of `specs/ValidLaw.antt`;
//! nothing here can run.
//!
//! The laws.

ghost use Rattle.valid_image_law.specs.ValidLaw.{EveryValidImageIsSafeAndInTime, MeetingIsSafeAndInTime, ValidIsWithoutFault, ValidMeetsPremises};

/// A valid image meets what the law of safety and the law of time ask of an image.
pub fn valid_meets_premises()
    ensures { ValidMeetsPremises }
{}

/// Every valid image is never stuck, within its sizes, keeps the processes that are inside monitors
/// apart and ready, and is in time.
pub fn every_valid_image_is_safe_and_in_time()
    ensures { EveryValidImageIsSafeAndInTime }
{}

/// An image is valid exactly where it has no fault.
pub fn valid_is_without_fault()
    ensures { ValidIsWithoutFault }
{}

/// An image with a monitor, a wait, a signal and a handler is so over every script, by computing
/// that it is valid.
pub fn meeting_is_safe_and_in_time()
    ensures { MeetingIsSafeAndInTime }
{}
