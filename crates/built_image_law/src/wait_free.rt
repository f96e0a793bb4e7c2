//! Laws: the routines of a well-formed program that reach no wait, and handlers that call only
//! those.
//!
//! `specs/Quiet.antt` says which routines reach no wait, and has the law: where handlers are so,
//! all that they come to keeps clear of waits. Nothing here can run.
//!
//! The laws.

ghost use Rattle.built_image_law.specs.Quiet.{QuietProgramsAreQuiet};

/// Where no handler reaches a wait, the routines that reach none do not wait and call only one
/// another.
pub fn quiet_programs_are_quiet()
    ensures { QuietProgramsAreQuiet }
{}
