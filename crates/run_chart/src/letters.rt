//! Letters.

ghost use Rattle.std.specs.Prelude.{◌≡◌};
ghost use Rattle.run_chart.specs.Letters.{drawn, first_of_two, letter_of_picked, order};

use crate::Letter;

/// The letter of a process that is picked, with so many burn ticks left, inside that monitor or
/// none.
pub fn letter_of_picked(dispatch_ticks: u32, inside: Option<u16>) -> Letter
    ensures { result ≡ letter_of_picked dispatch_ticks inside }
{
    if dispatch_ticks > 0 {
        return Letter::Overhead;
    }
    match inside {
        Some(_) => Letter::Inside,
        None => Letter::Outside,
    }
}

/// The place of a letter among the six.
fn order(letter: Letter) -> u8
    ensures { result ≡ order letter }
{
    match letter {
        Letter::Inside => 0,
        Letter::Outside => 1,
        Letter::Overhead => 2,
        Letter::HeldUp => 3,
        Letter::Waits => 4,
        Letter::Blank => 5,
    }
}

/// The one of two letters that is shown.
pub(crate) fn first_of_two(one: Letter, other: Letter) -> Letter
    ensures { result ≡ first_of_two one other }
{
    if order(one) <= order(other) {
        one
    } else {
        other
    }
}

/// How a letter is drawn.
pub(crate) fn drawn(letter: Letter) -> u8
    ensures { result ≡ drawn letter }
{
    match letter {
        Letter::Inside => b'm',
        Letter::Outside => b'#',
        Letter::Overhead => b'o',
        Letter::HeldUp => b'.',
        Letter::Waits => b'w',
        Letter::Blank => b' ',
    }
}
