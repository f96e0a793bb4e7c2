//! Logs of small programs that are runs of them, and logs that are none.

ghost use Rattle.source_semantics_law.specs.ByDeadline.{by_deadline, by_deadline_log, by_deadline_script, shorter_frame_first_log};
ghost use Rattle.source_semantics_law.specs.Example.{by_event, by_event_log, by_event_script, handled_range, handled_range_log, handled_range_script, late_signal, late_signal_log, late_signal_script, least_word, least_word_log, least_word_script, long_wait, long_wait_log, long_wait_script, loop_and_function, loop_and_function_log, loop_and_function_script, mine, mine_log, mine_script, mine_woken, mine_woken_log, mine_woken_script, one_put, one_put_log, one_put_script, overflow, overflow_log, overflow_script, raise_inside, raise_inside_log, raise_inside_script, signalled_wait, signalled_wait_log, signalled_wait_script, three_ranks, three_ranks_log, three_ranks_script, two_waiters, two_waiters_log, two_waiters_script};
ghost use Rattle.source_semantics_law.specs.NoRun.{before_occupant_log, ends_early_log, last_signalled_log, out_of_order_log, overrun_log, release_missing_log, released_twice_log, signal_late_log, time_out_late_log, until};
ghost use Rattle.source_semantics.specs.Source.{IsSourceRun};

/// The log of one process that puts a number is a run.
pub fn one_put_runs()
    ensures { IsSourceRun one_put one_put_script one_put_log }
{}

/// The log of three processes of which two enter a monitor is a run: one runs on at the
/// ceiling.
pub fn three_ranks_runs()
    ensures { IsSourceRun three_ranks three_ranks_script three_ranks_log }
{}

/// The log of a wait that is signalled at the last permitted tick is a run.
pub fn signalled_wait_runs()
    ensures { IsSourceRun signalled_wait signalled_wait_script signalled_wait_log }
{}

/// The log of the same wait, which times out a tick before the signal, is a run.
pub fn late_signal_runs()
    ensures { IsSourceRun late_signal late_signal_script late_signal_log }
{}

/// The log of an exception that is raised inside a monitor, which it leaves, is a run.
pub fn raise_inside_runs()
    ensures { IsSourceRun raise_inside raise_inside_script raise_inside_log }
{}

/// The log of a value outside its subrange, and of the handler that takes this, is a run.
pub fn handled_range_runs()
    ensures { IsSourceRun handled_range handled_range_script handled_range_log }
{}

/// The log of a sum that is no word, and raises, is a run.
pub fn overflow_runs()
    ensures { IsSourceRun overflow overflow_script overflow_log }
{}

/// The log of a quotient that is no word, and raises, is a run.
pub fn least_word_runs()
    ensures { IsSourceRun least_word least_word_script least_word_log }
{}

/// The log of a process that events release is a run.
pub fn by_event_runs()
    ensures { IsSourceRun by_event by_event_script by_event_log }
{}

/// The log of a function with a loop and an exit, and of a procedure that acts inside a loop,
/// is a run.
pub fn loop_and_function_runs()
    ensures { IsSourceRun loop_and_function loop_and_function_script loop_and_function_log }
{}

/// The log of two processes whose ranks go by the deadline is a run: the one with the longer
/// frame acts first.
pub fn by_deadline_runs()
    ensures { IsSourceRun by_deadline by_deadline_script by_deadline_log }
{}

/// The log of the mine pump control is a run.
pub fn mine_runs()
    ensures { IsSourceRun mine mine_script mine_log }
{}

/// The log of a wait of a hundred and fifty ticks beside two users of another monitor is a run.
pub fn long_wait_runs()
    ensures { IsSourceRun long_wait long_wait_script long_wait_log }
{}

/// The log of the mine pump control with an event, low air, and a fetch that is woken by a
/// store, is a run.
pub fn mine_woken_runs()
    ensures { IsSourceRun mine_woken mine_woken_script mine_woken_log }
{}

/// The log of two waits in one queue, signalled in turn, is a run.
pub fn two_waiters_runs()
    ensures { IsSourceRun two_waiters two_waiters_script two_waiters_log }
{}

/// An end in place of the put is no run.
pub fn ends_early_is_none()
    ensures { IsSourceRun one_put (until 15) ends_early_log → ⊥ }
{}

/// A log in which a release is missing is no run.
pub fn release_missing_is_none()
    ensures { IsSourceRun one_put (until 16) release_missing_log → ⊥ }
{}

/// A second release in one tick is no run.
pub fn released_twice_is_none()
    ensures { IsSourceRun one_put (until 15) released_twice_log → ⊥ }
{}

/// A release of a process at work is no run.
pub fn overrun_is_none()
    ensures { IsSourceRun one_put (until 16) overrun_log → ⊥ }
{}

/// A time-out that comes a tick late is no run.
pub fn time_out_late_is_none()
    ensures { IsSourceRun late_signal (until 100) time_out_late_log → ⊥ }
{}

/// A signal that wakes a process a tick too late is no run.
pub fn signal_late_is_none()
    ensures { IsSourceRun late_signal (until 100) signal_late_log → ⊥ }
{}

/// A process of the ceiling's rank that acts before the occupant is no run.
pub fn before_occupant_is_none()
    ensures { IsSourceRun late_signal (until 100) before_occupant_log → ⊥ }
{}

/// Releases out of their order are no run.
pub fn out_of_order_is_none()
    ensures { IsSourceRun raise_inside (until 50) out_of_order_log → ⊥ }
{}

/// A signal that takes the last of a queue is no run.
pub fn last_signalled_is_none()
    ensures { IsSourceRun two_waiters (until 300) last_signalled_log → ⊥ }
{}

/// A process with the shorter frame that acts before one with the shorter deadline is no run.
pub fn shorter_frame_first_is_none()
    ensures { IsSourceRun by_deadline by_deadline_script shorter_frame_first_log → ⊥ }
{}
