//! The image and the table that are built of a program.
//!
//! `specs/Named.antt` has the names of a program's parts, `specs/Built.antt` the image that is made
//! of a program with an overhead, and when a program is timely or late, `specs/Shown.antt` the
//! table that is shown. The definitions alone stand here.
#![tactic(auto)]
