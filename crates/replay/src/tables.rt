//! What the events of a program are judged by.

ghost use Rattle.std.specs.Prelude.{◌≡◌, ◌≤◌, IfOk};
ghost use Rattle.syntax_tree.specs.Placed.{placed, plain};
ghost use Rattle.source_semantics.specs.Names.{routine_count as routine_count_of};
ghost use Rattle.replay_state.specs.Tables.{AreRanksOf};
ghost use Rattle.replay_due_events.specs.NextDue.{FramesPass};
ghost use Rattle.replay_state.specs.Texts.{IsText};
ghost use Rattle.replay_due_events.specs.Timings.{IsTimetableOf};
ghost use Rattle.replay_accept.specs.Running.{AreRules, program_of};

use crate::order::rank_order;
use crate::processes::process_list;
use crate::timings::process_timings;
use out_of_memory::OutOfMemory;
use replay_accept::Rules;
use replay_calls::NumberedConditions;
use replay_due_events::Timetable;
use replay_next::routine_count;
use replay_state::{ProgramContext, Ranks};
use static_declarations::Declarations;
use std::alloc::Global;

/// The text of a program.
fn text_of<'a>(
    alloc: Global,
    declarations: &'a Declarations<'a>,
) -> Result<ProgramContext<'a>, OutOfMemory>
    ensures text { IfOk result IsText }
    ensures program { IfOk result (λ t. t.declarations.now ≡ declarations.now) }
{
    let processes = process_list(alloc, declarations.program().decls.as_slice())?;
    Ok(ProgramContext {
        declarations,
        processes,
        alloc,
    })
}

/// What the start events of a program go by.
fn timetable_of(
    alloc: Global,
    text: &ProgramContext<'_>,
    ranks: &Ranks,
) -> Result<Timetable, OutOfMemory>
    requires text { IsText text.now }
    requires ranks { AreRanksOf (plain (placed text.now.declarations.now)) ranks.now }
    ensures { IfOk result (IsTimetableOf (plain (placed text.now.declarations.now))) }
{
    let timings = process_timings(alloc, text.declarations, text.processes.as_slice())?;
    let by_rank = rank_order(alloc, ranks.ranks.as_slice())?;
    Ok(Timetable { timings, by_rank })
}

/// What the events of a program are judged by. Want of memory is the only error.
pub fn rules_of<'a>(
    alloc: Global,
    conditions: &'a NumberedConditions<'a>,
    ranks: Ranks,
) -> Result<Rules<'a>, OutOfMemory>
    requires ranks { AreRanksOf (plain (placed conditions.now)) ranks }
    requires frames { FramesPass (plain (placed conditions.now)) }
    requires few { routine_count_of (plain (placed conditions.now)) ≤ 512 }
    ensures rules { IfOk result AreRules }
    ensures program { IfOk result (λ r. program_of r ≡ plain (placed conditions.now)) }
{
    let declarations = conditions.declarations();
    let routines = routine_count(declarations);
    let text = text_of(alloc, declarations)?;
    let table = timetable_of(alloc, &text, &ranks)?;
    Ok(Rules {
        text,
        conditions,
        table,
        ranks,
        routines,
    })
}
