//! Law: the ranks, ceilings and blocks that a valid image declares are those that `sched_response`
//! defines.
//!
//! `sched_response` speaks of uses, one for each process: its deadline, and the stays of the entries
//! that it reaches. `specs/Uses.antt` says when uses are those of an image (`AreUses`), and the law
//! that then both definitions come to the same numbers (`Agrees`). An example meets the premise.
//! Calls of `valid_uses` state the laws; nothing here can run.
//!
//! The law.

ghost use Rattle.valid_image_law.specs.Uses.{MeetingIsUsed, UsesAgree};

/// Where the uses tell the deadlines and the longest stays of the processes of an image, the ranks,
/// ceilings and blocks that `sched_response` defines over them are those that a valid image has to
/// declare.
pub fn uses_agree()
    ensures { UsesAgree }
{}

/// The premise is met by the image with a monitor, a wait and a signal.
pub fn meeting_is_used()
    ensures { MeetingIsUsed }
{}
