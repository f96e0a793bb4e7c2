//! A run that meets the premises of the timing argument, as data, so that none of them is empty:
//! two processes share a monitor, and the lower one also waits.

ghost use Rattle.sched_theorem.specs.Example.{bound_of, dispatch_of, place_of, example_rank_of, trace_of, ReachesBounds, ShowsEach};
ghost use Rattle.sched_theorem.specs.InTime.{AreBounds};
ghost use Rattle.sched_theorem.specs.Placed.{AreRanks, IsInTimeAt, IsPlaced, MeetsDeadlinesAt};
ghost use Rattle.sched_response.specs.Demand.{AreTasks};

use crate::in_time::{activations_meet_deadlines, placed_runs_are_in_time};
use sched_response::Task;

/// What is left of an activation.
#[derive(Clone, Copy, PartialEq, Eq)]
pub struct RemainingWork {
    /// Ticks of execution: 0 exactly in an idle process.
    pub run_left: u8,
    /// Ticks of suspension.
    pub suspension_left: u8,
    /// How often it may still begin to wait.
    pub waits_left: u8,
    /// Whether it waits now.
    pub waiting: bool,
}

/// A process inside a monitor.
#[derive(Clone, Copy, PartialEq, Eq)]
pub struct Visit {
    /// The rank that is the monitor's ceiling.
    pub ceiling: usize,
    /// The ticks left of the stay, the present one counted.
    pub left: u8,
}

/// A process in a tick.
#[derive(Clone, Copy, PartialEq, Eq)]
pub struct Moment {
    /// Whether it is released in the tick.
    pub released: bool,
    /// Its activation before the start events of the tick.
    pub before: RemainingWork,
    /// Its activation after them.
    pub after: RemainingWork,
    /// Its stay in a monitor, if it is inside one.
    pub inside: Option<Visit>,
}

/// A tick of two processes.
#[derive(Clone, Copy, PartialEq, Eq)]
pub struct Tick {
    /// The place of the process that runs.
    pub picked: Option<usize>,
    /// The processes by place.
    pub processes: [Moment; 2],
}

/// A run of 18 ticks, after which both processes are idle, with the tasks that it is a run of.
///
/// Ranks and places count from 0, and rank 0 is the highest.
#[derive(Clone, Copy)]
pub struct Run {
    /// What the processes may take, by rank.
    pub tasks: [Task; 2],
    /// The ticks from a release to the end of its activation, the last one counted, at most, by
    /// rank.
    pub bounds: [u64; 2],
    /// The rank of the process of each place.
    pub ranks: [usize; 2],
    /// The place of the process of each rank.
    pub places: [usize; 2],
    /// The ticks, from tick 0 on.
    pub ticks: [Tick; 18],
}

/// What the two processes may take, the one of the higher rank first.
const TASKS: [Task; 2] = [
    Task {
        frame: 10,
        deadline: 10,
        run: 3,
        susp: 0,
        waits: 0,
        block: 2,
    },
    Task {
        frame: 20,
        deadline: 18,
        run: 8,
        susp: 4,
        waits: 1,
        block: 0,
    },
];

/// What is left of an activation that does not wait, as ticks of execution, ticks of suspension,
/// and waits.
macro_rules! left {
    ($run:expr, $susp:expr, $waits:expr) => {
        RemainingWork { run_left: $run, suspension_left: $susp, waits_left: $waits, waiting: false }
    };
}

/// A process that has no activation.
macro_rules! idle {
    () => {
        Moment { released: false, before: left!(0, 0, 0), after: left!(0, 0, 0), inside: None }
    };
}

/// A process that is released with so much to do.
macro_rules! released {
    ($($left:expr),+) => {
        Moment { released: true, before: left!(0, 0, 0), after: left!($($left),+), inside: None }
    };
}

/// A process with an activation outside monitors.
macro_rules! outside {
    ($($left:expr),+) => {
        Moment { released: false, before: left!($($left),+), after: left!($($left),+), inside: None }
    };
}

/// A process inside the monitor, whose ceiling is rank 0, for so many ticks.
macro_rules! inside {
    ($stay:expr; $($left:expr),+) => {
        Moment {
            released: false,
            before: left!($($left),+),
            after: left!($($left),+),
            inside: Some(Visit { ceiling: 0, left: $stay }),
        }
    };
}

/// A process that waits.
macro_rules! waits {
    ($($left:expr),+) => {
        Moment {
            released: false,
            before: RemainingWork { waiting: true, ..left!($($left),+) },
            after: RemainingWork { waiting: true, ..left!($($left),+) },
            inside: None,
        }
    };
}

/// A process whose wait ends with the tick's start events.
macro_rules! times_out {
    ($($left:expr),+) => {
        Moment {
            released: false,
            before: RemainingWork { waiting: true, ..left!($($left),+) },
            after: left!($($left),+),
            inside: None,
        }
    };
}

/// A tick in which the process of the place runs, or nobody.
macro_rules! tick {
    ($picked:expr, $first:expr, $second:expr) => {
        Tick { picked: $picked, processes: [$first, $second] }
    };
}

/// Two tasks and a run of theirs that meets each premise of `placed_runs_are_in_time`.
///
/// The process of place 0 has the lower rank. It is inside the monitor twice, for two ticks each
/// time, and waits in between until it times out. The process of place 1 is released twice, each
/// time while the other is inside the monitor, and so it is blocked. Each of the two has an
/// activation that ends in the last tick of its bound.
pub fn example() -> Run
    ensures tasks { AreTasks result.tasks }
    ensures bounds { AreBounds result.tasks (bound_of result) }
    ensures ranks { AreRanks 2 (example_rank_of result) (place_of result) }
    ensures run { IsPlaced result.tasks (example_rank_of result) 18 (trace_of result)
        (dispatch_of result) }
    ensures shows { ShowsEach result }
    ensures reached { ReachesBounds result }
{
    Run {
        tasks: TASKS,
        bounds: [5, 18],
        ranks: [1, 0],
        places: [1, 0],
        ticks: [
            // The place of who runs, and what is left of each: execution, suspension, waits; before
            // them that of a stay.
            tick!(Some(0), released!(8, 4, 1), idle!()),
            tick!(Some(0), inside!(2; 7, 4, 1), idle!()),
            tick!(Some(0), inside!(1; 6, 4, 1), released!(3, 0, 0)),
            tick!(Some(1), outside!(5, 4, 1), outside!(3, 0, 0)),
            tick!(Some(1), outside!(5, 4, 1), inside!(1; 2, 0, 0)),
            tick!(Some(1), outside!(5, 4, 1), outside!(1, 0, 0)),
            tick!(Some(0), outside!(5, 4, 1), idle!()),
            tick!(None, waits!(4, 4, 0), idle!()),
            tick!(None, waits!(4, 3, 0), idle!()),
            tick!(None, waits!(4, 2, 0), idle!()),
            tick!(None, waits!(4, 1, 0), idle!()),
            tick!(Some(0), times_out!(4, 0, 0), idle!()),
            tick!(Some(0), inside!(2; 3, 0, 0), released!(3, 0, 0)),
            tick!(Some(0), inside!(1; 2, 0, 0), outside!(3, 0, 0)),
            tick!(Some(1), outside!(1, 0, 0), outside!(3, 0, 0)),
            tick!(Some(1), outside!(1, 0, 0), inside!(1; 2, 0, 0)),
            tick!(Some(1), outside!(1, 0, 0), outside!(1, 0, 0)),
            tick!(Some(0), outside!(1, 0, 0), idle!()),
        ],
    }
}

/// The example again, which is in time by `placed_runs_are_in_time`: no stretch of a level is
/// longer than its bound, no release finds its process unfinished, and each activation ends within
/// its bound and so within its deadline.
pub fn example_is_in_time() -> Run
    ensures in_time { IsInTimeAt result.tasks (example_rank_of result) (place_of result)
        (bound_of result) 18
        (trace_of result) }
    ensures deadlines { MeetsDeadlinesAt result.tasks (example_rank_of result) (bound_of result) 18
        (trace_of result) }
    ensures shows { ShowsEach result }
    ensures reached { ReachesBounds result }
{
    placed_runs_are_in_time();
    activations_meet_deadlines();
    example()
}
