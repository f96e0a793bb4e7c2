//! That timeliness falls with the run of a task.

ghost use Rattle.std.specs.Prelude.{◌≤◌, ◌<◌, ℕ, List, length};
ghost use Rattle.sched_response.specs.declared.tasks.Task.{Task};
ghost use Rattle.sched_sensitivity.specs.Slack.{with_more, IsTimely};

/// A set that is timely with some ticks more at a level is so with fewer.
pub fn less_is_timely_too()
    ensures { (ts : List Task) (level x y : ℕ)
        → level < length ts
        → x ≤ y
        → IsTimely (with_more ts level y)
        → IsTimely (with_more ts level x) }
{}
