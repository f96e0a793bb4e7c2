//! Law: the run of a compiled image under earliest deadline first is a run of the source meaning in
//! which any ready process may act.
//!
//! `specs/Runs.antt` says what such a run keeps. Promised: a run of an image that waits nowhere, in
//! which no release finds its process unfinished, keeps it; the law of runs itself is over a
//! relation of the proof, and stands in `proofs/Run.antt`, as that of `code_lifting::runs_refine` does. Nothing
//! here can run.
//!
//! The laws that a contract can hold.
//!
//! The law of whole runs over any relation of the processes' code is a lemma, `run_is_any_run` of
//! `proofs/Run.antt`: it quantifies over that relation, so no contract can hold it. Crates above
//! state it for theirs.

ghost use Rattle.edf_semantics.specs.Runs.{WaitlessRunsAreAwake, WaitlessRunsAreKept};

/// In a run of an image that waits nowhere nobody waits, and the queues hold those who wait.
pub fn waitless_runs_are_awake()
    ensures { WaitlessRunsAreAwake }
{}

/// A run of an image that waits nowhere, in which no release finds its process unfinished, keeps
/// what the law of whole runs asks for.
pub fn waitless_runs_are_kept()
    ensures { WaitlessRunsAreKept }
{}
