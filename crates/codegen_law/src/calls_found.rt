//! Law: each name that a well-formed text calls is that of a routine or an entry.
//!
//! `specs/Called.antt` says what of each call is promised: what it finds, and that only a text that
//! may call procedures and entries calls others than functions. Nothing here can run.
//!
//! The law.

ghost use Rattle.codegen_law.specs.Called.{TextsCallWhatIsFound};

/// Each call in a text that fits where it stands finds a routine or an entry.
pub fn texts_call_what_is_found()
    ensures { TextsCallWhatIsFound }
{}
