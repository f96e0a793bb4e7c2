//! `table`.

ghost use Rattle.std.specs.Prelude.{◌≡◌, ◌∷◌, [], ℕ, List, Some, Ok, Err, IfOk};
ghost use Rattle.command_answers.specs.Acting.{CanBeDone, IsQuiet};
ghost use Rattle.command_answers.specs.Acts.{outcome_of};
ghost use Rattle.command_answers.specs.Contents.{IsContent};
ghost use Rattle.command_answers.specs.Prepared.{Prepares};
ghost use Rattle.command_answers.specs.OnlyReads.{OnlyReads};
ghost use Rattle.command_answers.specs.Tried.{HasTried, status_of};
ghost use Rattle.command_refusals.specs.Refusals.{Explains, IsExplained};
ghost use Rattle.command_refusals.specs.Told.{IsTableTold};
ghost use Rattle.command_due.specs.AsmDue.{keeps};
ghost use Rattle.command_due.specs.CommandsDue.{told};
ghost use Rattle.command_due.specs.TableDue.{IsTableDue, table_fault_line as line_of_fault};
ghost use Rattle.command_words.specs.Calls as call;
ghost use Rattle.message_table.specs.Message as message_of;
ghost use Rattle.table_format.specs.Program.{table_text as text_of_table};
ghost use Rattle.table_format.specs.Rules.{longest_text};
ghost use Rattle.table_reader.specs.Answer.{Answers};

use command_answers::{Content, PrepareError, PreparedCall, Status, Store, put, read};
use itoa::Buffer;
use message_table::{long_message, table_message};
use out_of_memory::OutOfMemory;
use outside::Files;
use std::alloc::Global;
use syntax_tree::Text;
use table_format::{TaskTable, table_text};
use table_reader::{LONG_TABLE, LONGEST_TABLE, TableFault, read_table};

/// The table that a file holds.
///
/// # Errors
///
/// As those of `read_table`; the fault of a file that is too long is 7, on line 0.
fn read_content(alloc: Global, content: &Content) -> Result<TaskTable, TableFault>
    ensures { (text : List ℕ) → IsContent longest_text content.now text → Answers text result }
{
    match content {
        Content::Bytes(text) => read_table(alloc, text.as_slice()),
        Content::TooLong => Err(TableFault::Bad {
            number: LONG_TABLE,
            line: 0,
        }),
    }
}

/// The line of a fault of a text that is no table: its number, and the line from 1 on, or 0.
fn table_fault_line(alloc: Global, number: u8, line: u32) -> Result<Text, OutOfMemory>
    ensures { IfOk result (λ text. text ≡ line_of_fault number line) }
{
    let mut digits = Buffer::new();
    let mut text = Text::new(alloc);
    text.extend(b"T")?;
    text.extend(digits.format(number).as_bytes())?;
    text.extend(b" ")?;
    text.extend(digits.format(line).as_bytes())?;
    text.extend(b"\n")?;
    Ok(text)
}

/// The message for a fault of what a table's file holds.
fn message_of(
    alloc: Global,
    file: &str,
    content: &Content,
    number: u8,
    line: u32,
) -> Result<Text, OutOfMemory>
    ensures { IfOk result (λ message. (text : List ℕ) → IsContent longest_text content.now text →
        message ≡ message_of.table_message file.now text number line) }
{
    match content {
        Content::Bytes(text) => table_message(alloc, file, text.as_slice(), number, line),
        Content::TooLong => long_message(alloc, file),
    }
}

/// The line of a fault, and the message.
fn line_of(
    alloc: Global,
    message: &mut Text,
    file: &str,
    content: &Content,
    fault: TableFault,
) -> Result<Text, OutOfMemory>
    ensures due { IfOk result (λ line. (text : List ℕ) → Answers text (Err fault) →
        IsTableDue text (told 2 line)) }
    ensures told { IfOk result (λ line. (text : List ℕ) → IsContent longest_text content.now text →
        IsTableTold file.now text (told 2 line) message.new) }
{
    match fault {
        TableFault::Bad { number, line } => {
            *message = message_of(alloc, file, content, number, line)?;
            table_fault_line(alloc, number, line)
        }
        TableFault::Memory(error) => Err(error),
    }
}

/// The act for a file that holds no table: it puts the line of the fault, and the message takes the
/// place of the given one.
fn refuse<'a>(
    alloc: Global,
    message: &mut Text,
    file: &str,
    content: &Content,
    fault: TableFault,
) -> Result<PreparedCall<'a>, OutOfMemory>
    ensures due { IfOk result (λ act. (text : List ℕ) → Answers text (Err fault) →
        IsTableDue text (outcome_of act)) }
    ensures quiet { IfOk result IsQuiet }
    ensures told { IfOk result (λ act. (text : List ℕ) → IsContent longest_text content.now text →
        IsTableTold file.now text (outcome_of act) message.new) }
{
    let line = line_of(alloc, message, file, content, fault)?;
    Ok(put(Status::Text, line))
}

/// The act that stores the text of the program of a table under the name `target`.
fn store_program<'a>(
    alloc: Global,
    table: &TaskTable,
    target: &'a str,
) -> Result<PreparedCall<'a>, OutOfMemory>
    ensures outcome { IfOk result (λ act. outcome_of act ≡ keeps (text_of_table table.now)) }
    ensures done { IfOk result (CanBeDone (Some target.now)) }
{
    let text = table_text(alloc, table)?;
    let bytes = Vec::from_slice(alloc, text.as_bytes())?;
    Ok(PreparedCall {
        status: Status::Done,
        text: Text::new(alloc),
        store: Some(Store {
            name: target,
            bytes,
        }),
        run: None,
    })
}

/// The act of `table` for what the table's file holds.
fn table_act<'a>(
    alloc: Global,
    message: &mut Text,
    tasks: &str,
    content: &Content,
    program: &'a str,
) -> Result<PreparedCall<'a>, OutOfMemory>
    ensures due { IfOk result (λ act. (text : List ℕ) → IsContent longest_text content.now text →
        IsTableDue text (outcome_of act)) }
    ensures done { IfOk result (CanBeDone (Some program.now)) }
    ensures told { IfOk result (λ act. (text : List ℕ) → IsContent longest_text content.now text →
        Explains (IsTableTold tasks.now text (outcome_of act) message.new) act) }
{
    match read_content(alloc, content) {
        Ok(table) => store_program(alloc, &table, program),
        Err(fault) => refuse(alloc, message, tasks, content, fault),
    }
}

/// `table`.
#[tactic(auto, using(command_answers::proofs::Held::first_unread, command_answers::proofs::Trying::tried_last))]
pub fn prepare_table<'a, F: Files>(
    alloc: Global,
    message: &mut Text,
    tasks: &'a str,
    program: &'a str,
    files: &mut F,
) -> Result<PreparedCall<'a>, PrepareError<'a>>
    ensures prepared { Prepares F.tells (call.table tasks.now program.now) (F.state files.old)
        (F.state files.new) result }
    ensures only_reads { OnlyReads (F.state files.old) (F.state files.new) }
    ensures reads { HasTried (tasks.now ∷ []) (F.state files.old).reads
        (F.state files.new).reads (status_of result) }
    ensures told { IfOk result (IsExplained F.tells (call.table tasks.now program.now)
        (F.state files.old).held message.new) }
{
    let content = read(files, tasks, LONGEST_TABLE)?;
    match table_act(alloc, message, tasks, &content, program) {
        Ok(act) => Ok(act),
        Err(error) => Err(PrepareError::Memory(error)),
    }
}
