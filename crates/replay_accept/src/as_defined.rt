//! Acts with the numbers that they tell.

ghost use Rattle.std.specs.Prelude.{IsTrue, ℕ, ◌↔◌, ◌≡◌};
ghost use Rattle.base.specs.declared.event.Act.TheVariants as act_is;

use base::Act;

/// Whether the act reads this value from the device.
pub fn is_get(act: Act, device: usize, word: i32) -> bool
    ensures { IsTrue result ↔ (act ≡ act_is.Get device word) }
{
    match act {
        Act::Get { dev, value } => usize::from(dev) == device && value == word,
        _ => false,
    }
}

/// Whether the act writes this value to the device.
pub fn is_put(act: Act, device: usize, word: i64) -> bool
    ensures { IsTrue result ↔ (act ≡ act_is.Put device word) }
{
    match act {
        Act::Put { dev, value } => usize::from(dev) == device && i64::from(value) == word,
        _ => false,
    }
}

/// Whether the act enters the monitor.
pub fn is_enter(act: Act, monitor: usize) -> bool
    ensures { IsTrue result ↔ (act ≡ act_is.Enter monitor) }
{
    match act {
        Act::Enter { mon } => usize::from(mon) == monitor,
        _ => false,
    }
}

/// Whether the act leaves the monitor.
pub fn is_leave(act: Act, monitor: usize) -> bool
    ensures { IsTrue result ↔ (act ≡ act_is.Leave monitor) }
{
    match act {
        Act::Leave { mon } => usize::from(mon) == monitor,
        _ => false,
    }
}

/// Whether the act waits on the condition.
pub fn is_wait(act: Act, condition: usize) -> bool
    ensures { IsTrue result ↔ (act ≡ act_is.Wait condition) }
{
    match act {
        Act::Wait { cond } => usize::from(cond) == condition,
        _ => false,
    }
}

/// Whether the process, if any, is this one, if any.
fn is_same(told: Option<u16>, first: Option<usize>) -> bool
    ensures { IsTrue result ↔ (told ≡ first) }
{
    match told {
        None => first.is_none(),
        Some(told) => match first {
            None => false,
            Some(first) => usize::from(told) == first,
        },
    }
}

/// Whether the act signals the condition, which takes this process out of its queue, if any.
pub fn is_signal(act: Act, condition: usize, first: Option<usize>) -> bool
    ensures { IsTrue result ↔ (act ≡ act_is.Signal condition first) }
{
    match act {
        Act::Signal { cond, woken } => usize::from(cond) == condition && is_same(woken, first),
        _ => false,
    }
}

/// Whether the act broadcasts to the condition, which takes so many out of its queue.
pub fn is_broadcast(act: Act, condition: usize, length: usize) -> bool
    ensures { IsTrue result ↔ (act ≡ act_is.Broadcast condition length) }
{
    match act {
        Act::Broadcast { cond, count } => {
            usize::from(cond) == condition && usize::from(count) == length
        }
        _ => false,
    }
}

/// Whether the act is told that the condition's queue is empty, or that it is not.
pub fn is_asked(act: Act, condition: usize, empty: bool) -> bool
    ensures { IsTrue result ↔ (act ≡ act_is.Empty condition empty) }
{
    match act {
        Act::Empty { cond, answer } => usize::from(cond) == condition && answer == empty,
        _ => false,
    }
}

/// Whether the act raises the exception.
pub fn is_raise(act: Act, exception: u32) -> bool
    ensures { IsTrue result ↔ (act ≡ act_is.Raise exception) }
{
    match act {
        Act::Raise { number } => u32::from(number) == exception,
        _ => false,
    }
}

/// Whether the act ends the activation.
pub fn is_end(act: Act) -> bool
    ensures { IsTrue result ↔ (act ≡ act_is.End) }
{
    match act {
        Act::End => true,
        _ => false,
    }
}
