//! The tasks of a program, told of its text alone: one list of them; its bounds taken apart.
//!
//! `specs/Tasks.antt` says which entries a process comes to by its calls, how long a rank can be
//! held up, what task each process is, and when a program is in time. Nothing here knows of images,
//! and nothing here can run.
//!
//! `ranks_agree_law`: ranks and ceilings of `sched_response` are those of `source_semantics`
//! (`specs/Ranked.antt`).
//!
//! `one_judgement`: each program, whether it keeps to the rules or not, has one list of tasks, and
//! is in time or not, never both; ranks are 1 to as many as there are processes, each once, and a
//! rank has one block (`specs/Once.antt`).
//!
//! Bounds taken apart, and what fits, told of the text alone: `specs/Blockers.antt` says which
//! entry and which process make the block of a rank, `specs/Levels.antt` what is shown of each
//! rank, `specs/Fits.antt` which overhead, costs and suspensions fit; `IsWhyText` and `IsFitText`
//! are the texts on them. `why_law`: the tasks without an overhead, with one, are those of the
//! program with it.
#![tactic(auto)]

pub mod example;
pub mod one_judgement;
pub mod ranks_agree_law;
pub mod why_law;
