//! The script of the load.

ghost use Rattle.std.specs.Prelude.{◌≡◌, ◌∷◌, ◌++◌, ◌<◌, ◌^◌, [], ℕ, codes, IfOk, OnOk};
ghost use Rattle.script.specs.Saying.{set, text_of};
ghost use Rattle.load.specs.Draws.{next, state};
ghost use Rattle.load.specs.Script.{script_text, value};

use crate::draws::RandomGenerator;
use crate::words::add_number;
use itoa::Buffer;
use out_of_memory::OutOfMemory;
use std::alloc::Global;
use syntax_tree::Text;

/// How many lines set the in device.
const SETTINGS: u64 = 20;

/// Puts the line that sets the in device at the end of a text.
fn add_setting(text: &mut Text, tick: u64, value: i32) -> Result<(), OutOfMemory>
    ensures { OnOk result (text.new ≡ text.old ++ text_of (set tick (codes "src") value ∷ [])) }
{
    let mut digits = Buffer::new();
    add_number(text, "", tick)?;
    text.extend(b" set src ")?;
    text.extend(digits.format(value).as_bytes())?;
    text.extend(b"\n")
}

/// The next value that the in device is set to.
fn draw_value(draws: &mut RandomGenerator) -> i32
    ensures state { draws.new.state ≡ next draws.old.state }
    ensures value { (key before : ℕ) → draws.old.state ≡ state key before →
        result ≡ value key before }
{
    let drawn = draws.below(2000);
    drawn as i32 - 1000
}

/// The text of the script for so many processes.
fn script_of(alloc: Global, key: u64, count: u64) -> Result<Text, OutOfMemory>
    requires { count < 2 ^ 32 }
    ensures { IfOk result (λ text. text ≡ script_text key count) }
{
    let mut text = Text::new(alloc);
    let mut draws = RandomGenerator { state: key };
    for before in 0..SETTINGS {
        let value = draw_value(&mut draws);
        add_setting(&mut text, 1000 * count * before, value)?;
    }
    add_number(&mut text, "end ", 20_000 * count)?;
    text.extend(b"\n")?;
    Ok(text)
}

/// The script of the load: twenty lines that set the in device to values drawn from the key, one
/// for each of the shortest frames, and the end.
///
/// # Errors
///
/// Only where there is not enough memory for the text.
pub fn make_script(alloc: Global, key: u64, count: u32) -> Result<Text, OutOfMemory>
    ensures { IfOk result (λ text. text ≡ script_text key count) }
{
    script_of(alloc, key, u64::from(count))
}
