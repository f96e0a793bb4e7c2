//! That the machine may take the runs of valid images.
//!
//! `specs/RunnerLaws.antt` says that every valid image, under a script that respects its frames, has a
//! run that `Machine` of `vm_runner` can take. The law alone stands here; nothing can run.
//!
//! The law, for every image and every script.

ghost use Rattle.vm_law.specs.RunnerLaws.{ValidRunsAreRunnable};

/// A valid image under a script in order that respects its frames has a run that the machine takes.
pub fn valid_runs_are_runnable()
    ensures { ValidRunsAreRunnable }
{}
