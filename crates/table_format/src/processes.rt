//! The processes of a program.

ghost use Rattle.std.specs.Prelude.{◌≡◌, ◌++◌, ◌-◌, [], ◌∷◌, map, OnOk};
ghost use Rattle.syntax_tree.specs.Placed.{process};
ghost use Rattle.table_format.specs.Rules.{least_cost};
ghost use Rattle.table_format.specs.Program.{stay_call, table_process};
ghost use Rattle.table_format.specs.Parts.{activation_text, declarations_text, option_text, statements_text};

use crate::parts::add_parts;
use crate::spending::add_spending;
use crate::{TaskLine, TaskStay};
use itoa::Buffer;
use out_of_memory::OutOfMemory;
use syntax_tree::Text;

/// Puts a number with these bytes before it, where there is one, at the end of a text.
fn add_option(text: &mut Text, before: &[u8], number: Option<u64>) -> Result<(), OutOfMemory>
    ensures { OnOk result (text.new ≡ text.old ++ option_text before.now number) }
{
    match number {
        None => Ok(()),
        Some(number) => {
            let mut digits = Buffer::new();
            add_parts(text, &[before, digits.format(number).as_bytes()])
        }
    }
}

/// Puts what releases a process, its frame and its deadline at the end of a text.
fn add_activation(text: &mut Text, task: &TaskLine) -> Result<(), OutOfMemory>
    ensures { OnOk result (text.new ≡ text.old ++ activation_text task.now) }
{
    let mut digits = Buffer::new();
    let frame = digits.format(task.frame).as_bytes();
    match &task.event {
        None => {
            add_parts(text, &[b" : periodic frame ", frame])?;
            add_option(text, b" deadline ", task.deadline)?;
            add_option(text, b" first activation atTime ", task.first)
        }
        Some(event) => {
            let event = event.as_bytes();
            add_parts(text, &[b" : atEvent ", event, b" frame ", frame])?;
            add_option(text, b" deadline ", task.deadline)
        }
    }
}

/// Puts the calls in which a process stays in monitors at the end of a text.
fn add_calls(text: &mut Text, tail: &[u8], stays: &[TaskStay]) -> Result<(), OutOfMemory>
    ensures { OnOk result
        (text.new ≡ text.old ++ statements_text (map (stay_call tail.now) stays.now)) }
{
    for stay in stays {
        let mut digits = Buffer::new();
        let ticks = digits.format(stay.ticks).as_bytes();
        let monitor = stay.monitor.as_bytes();
        add_parts(text, &[monitor, b" . stay", ticks, tail, b" ( )\n"])?;
    }
    Ok(())
}

/// How many ticks of its cost are left to the statements of a process beside its stays.
fn ticks_left(task: &TaskLine) -> u64
    ensures { result ≡ task.now.cost - least_cost task.now }
{
    let stays = task.stays.as_slice();
    let mut left = task.cost.saturating_sub(4);
    for stay in stays {
        left = left.saturating_sub(15).saturating_sub(stay.ticks);
    }
    left
}

/// Puts a process at the end of a text.
pub fn add_process(text: &mut Text, tail: &[u8], task: &TaskLine) -> Result<(), OutOfMemory>
    ensures { OnOk result (text.new ≡ text.old ++
        declarations_text (process (table_process tail.now task.now) ∷ [])) }
{
    let name = task.name.as_bytes();
    add_parts(text, &[b"process ", name])?;
    add_activation(text, task)?;
    add_parts(text, &[b"\nvar x", tail, b" : int\nbegin\n"])?;
    add_calls(text, tail, task.stays.as_slice())?;
    add_spending(text, tail, ticks_left(task))?;
    add_parts(text, &[b"end ", name, b"\n"])
}
