//! The meaning of an image, tick by tick; when a state is safe.
//!
//! `specs/Image.antt` and `specs/State.antt` say what the machine runs and where it stands,
//! `specs/Effect.antt` what each instruction comes to, `specs/Starts.antt` the start events,
//! `specs/Tick.antt` a tick and `specs/Run.antt` a run.
//!
//! When a state is safe, and when an image fits its trees: code that is of its segment tree
//! (`Part`, `Walk`), what is still to be done in a frame (`Path`), a process with its calls in
//! progress (`Job`), the state (`Safe`, `Whole`), what falls with each tick (`Work`, `Stays`,
//! `Waits`), queues (`Queues`), and the premise of the safety law. Nothing here can run.
#![tactic(auto)]
