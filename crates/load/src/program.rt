//! The program of the load.

ghost use Rattle.std.specs.Prelude.{◌≡◌, ◌<◌, ◌+◌, ◌*◌, ◌^◌, ◌++◌, ℕ, IfOk, OnOk};
ghost use Rattle.load.specs.Draws.{state};
ghost use Rattle.load.specs.Program.{drawn, is_even, pause_text, process_text, program_text};

use crate::draws::RandomGenerator;
use crate::words::add_number;
use out_of_memory::OutOfMemory;
use std::alloc::Global;
use syntax_tree::Text;

/// What a process draws: how many of the shortest frames its own has beyond one, how many turns its
/// loop has beyond one, and what a turn adds.
#[derive(Clone, Copy)]
pub struct DrawnProcess {
    pub frames: u64,
    pub turns: u64,
    pub addend: u64,
}

/// The text before the processes.
const OPENING: &[u8] = b"program load\ndevice src : in\ndevice dst : out\nmonitor m\nvar n : int\n\
    condition c\nentry procedure add ( v : int )\nbegin\nn := v\nsignal c\nend add\n\
    entry procedure pause ( )\nbegin\nwait c noLongerThan 50 : 10\nend pause\nend m\n";

/// The next three draws.
fn draw_three(draws: &mut RandomGenerator) -> DrawnProcess
    ensures state { (key before : ℕ) → draws.old.state ≡ state key (3 * before) →
        draws.new.state ≡ state key (3 * (before + 1)) }
    ensures drawn { (key before : ℕ) → draws.old.state ≡ state key (3 * before) →
        result ≡ drawn key before }
    ensures frames { result.frames < 8 }
    ensures turns { result.turns < 10 }
{
    let frames = draws.below(8);
    let turns = draws.below(10);
    let addend = draws.below(50);
    DrawnProcess {
        frames,
        turns,
        addend,
    }
}

/// Puts the statement that pauses at the end of a text, where the number is even.
fn add_pause(text: &mut Text, number: u64) -> Result<(), OutOfMemory>
    ensures { OnOk result (text.new ≡ text.old ++ pause_text (is_even number)) }
{
    if number % 2 == 0 {
        return text.extend(b"m . pause ( )\n");
    }
    Ok(())
}

/// Puts the process of this number, of so many, at the end of a text.
fn add_process(
    text: &mut Text,
    count: u64,
    number: u64,
    drawn: DrawnProcess,
) -> Result<(), OutOfMemory>
    requires count { count < 2 ^ 32 }
    requires frames { drawn.frames < 8 }
    requires turns { drawn.turns < 10 }
    ensures { OnOk result (text.new ≡ text.old ++ process_text count number drawn) }
{
    add_number(text, "process p", number)?;
    add_number(
        text,
        " : periodic frame ",
        1000 * count * (1 + drawn.frames),
    )?;
    add_number(
        text,
        "\nvar x : int\nbegin\nget src x\nfor i : 1 .. ",
        1 + drawn.turns,
    )?;
    add_number(text, " do\nx := x mod 97 + ", drawn.addend)?;
    text.extend(b"\nend for\nm . add ( x )\n")?;
    add_pause(text, number)?;
    add_number(text, "put dst x\nhandler ( 10 )\nput dst 0\nend p", number)?;
    text.extend(b"\n")
}

/// The text of the program with so many processes.
fn program_of(alloc: Global, key: u64, count: u64) -> Result<Text, OutOfMemory>
    requires { count < 2 ^ 32 }
    ensures { IfOk result (λ text. text ≡ program_text key count) }
{
    let mut text = Text::from_bytes(alloc, OPENING)?;
    let mut draws = RandomGenerator { state: key };
    for before in 0..count {
        let drawn = draw_three(&mut draws);
        add_process(&mut text, count, before + 1, drawn)?;
    }
    text.extend(b"end load\n")?;
    Ok(text)
}

/// The canonical text of the program of the load: two devices, a monitor with two entries, and so
/// many periodic processes, whose frames, turns and addends are drawn from the key.
///
/// # Errors
///
/// Only where there is not enough memory for the text.
pub fn make_program(alloc: Global, key: u64, count: u32) -> Result<Text, OutOfMemory>
    ensures { IfOk result (λ text. text ≡ program_text key count) }
{
    program_of(alloc, key, u64::from(count))
}
