//! Replaying.

ghost use Rattle.std.specs.Prelude.{◌<◌, ◌≤◌, ◌^◌, ℕ, List, [], IfErr, IfOk};
ghost use Rattle.source_semantics.specs.Names.{routine_count};
ghost use Rattle.replay_state.specs.Tables.{AreRanksOf};
ghost use Rattle.script.specs.Meaning.{said};
ghost use Rattle.command_due.specs.Source.{IsWritten};
ghost use Rattle.replay_due_events.specs.NextDue.{FramesPass};
ghost use Rattle.source_semantics.specs.Config.{start as start_of};
ghost use Rattle.syntax_tree.specs.Placed.{placed, plain};
ghost use Rattle.event_log.specs.Reader.{HasRead, IsReader, names_of};
ghost use Rattle.replay.specs.Judging.{IsFaultOf, IsFoundOf};

use crate::frames_pass_law::frames_pass;
use crate::{judge, ranks_of, start};
use built_image_law::premises_of_laws::checked_programs_are_ready;
use event_log::{LogFault, LogReader};
use replay_calls::NumberedConditions;
use replay_reason_spec::Finding;
use replay_state::Ranks;
use script::Script;
use static_declarations::Declarations;
use static_semantics::Checked;
use std::alloc::Global;

/// What is found of a log of which no line is read yet, by the declarations of its program and by
/// its ranks and ceilings.
fn judged<'a, 'b: 'a>(
    alloc: Global,
    declarations: &'a Declarations<'b>,
    ranks: Ranks,
    script: &Script,
    reader: &mut LogReader<'_>,
) -> Result<Finding, LogFault>
    requires ranks { AreRanksOf (plain (placed declarations.now)) ranks }
    requires frames { FramesPass (plain (placed declarations.now)) }
    requires routines { routine_count (plain (placed declarations.now)) ≤ 512 }
    requires end { script.now.end < 2 ^ 61 }
    requires reader { IsReader reader.old }
    ensures found { IfOk result (λ found. (log : List ℕ) → HasRead log [] reader.old →
        IsFoundOf (plain (placed declarations.now)) (said script.now.lines script.now.end)
        (start_of (plain (placed declarations.now))) (names_of reader.old) log found
        reader.new.lines) }
    ensures fault { IfErr result (λ why. (log : List ℕ) → HasRead log [] reader.old →
        IsFaultOf (names_of reader.old) log why) }
{
    let conditions = NumberedConditions::new(alloc, declarations)?;
    let mut running = start(alloc, &conditions, ranks)?;
    judge(&mut running, script, reader)
}

/// Whether the log of which no line is read yet is that of a run, over the script, of the program
/// of a text, which keeps to all rules and is not too large; else the first line that is refused,
/// the first line being 1, and why. A fault of the log's text and want of memory are the only
/// errors.
pub fn replay(
    alloc: Global,
    program: &Checked,
    script: &Script,
    reader: &mut LogReader<'_>,
) -> Result<Finding, LogFault>
    ghost text: { List ℕ }
    requires written { IsWritten text (placed program.now) }
    requires end { script.now.end < 2 ^ 61 }
    requires reader { IsReader reader.old }
    ensures found { IfOk result (λ found. (log : List ℕ) → HasRead log [] reader.old →
        IsFoundOf (plain (placed program.now)) (said script.now.lines script.now.end)
        (start_of (plain (placed program.now))) (names_of reader.old) log found
        reader.new.lines) }
    ensures fault { IfErr result (λ why. (log : List ℕ) → HasRead log [] reader.old →
        IsFaultOf (names_of reader.old) log why) }
{
    checked_programs_are_ready();
    frames_pass();
    let declarations = Declarations::new(alloc, program.named())?;
    let ranks = ranks_of(alloc, program)?;
    judged(alloc, &declarations, ranks, script, reader)
}
