//! Law: the run of a compiled image is a run of the source meaning, from the code of each process.
//!
//! `specs/Related.antt` relates the states of machine and source, and `specs/Compiled.antt` says
//! when an image is compiled from a program. Promised: what a valid image keeps, in the form that
//! the law of runs takes; the law itself is over a relation of the proof, and stands in
//! `proofs/Run.antt`.
//!
//! The laws that a contract can hold.
//!
//! The law of whole runs over any relation of the processes' code is a lemma, `run_is_source_run`
//! of `proofs/Run.antt`: it quantifies over that relation, so no contract can hold it. Crates above
//! state it for theirs.

ghost use Rattle.code_lifting.specs.Compiled.{ValidRunsAreKept};

/// A run of a valid image in which no release finds its process unfinished keeps what the law of
/// whole runs asks for.
pub fn valid_runs_are_kept()
    ensures { ValidRunsAreKept }
{}
