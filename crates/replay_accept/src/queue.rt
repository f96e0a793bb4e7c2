//! Queues of conditions.

ghost use Rattle.std.specs.Prelude.{◌≡◌};
ghost use Rattle.source_semantics.specs.Config.{queue as queue_now};
ghost use Rattle.source_semantics.specs.Source.{is_empty};
ghost use Rattle.replay_state.specs.View.{config_of};
ghost use Rattle.replay_accept.specs.Told.{first_of};

use replay_state::{Config, queue_at};

/// The processes in the condition's queue, the first to be taken out first.
pub fn queue<'c>(config: &'c Config<'_>, condition: usize) -> &'c [usize]
    ensures { result.now ≡ queue_now (config_of config.now) condition }
{
    queue_at(config.queues.as_slice(), condition)
}

/// The first of the queue.
pub fn first(queue: &[usize]) -> Option<usize>
    ensures { result ≡ first_of queue.now }
{
    queue.first().copied()
}

/// Whether nobody stands in the queue.
pub fn is_nobody_in(queue: &[usize]) -> bool
    ensures { result ≡ is_empty queue.now }
{
    queue.is_empty()
}
