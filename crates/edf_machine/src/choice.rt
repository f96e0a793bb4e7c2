//! Which process runs.

ghost use Rattle.std.specs.Prelude.{◌≡◌, List, false, map, true};
ghost use Rattle.edf_semantics.specs.Choice.{Mark, choose, is_sooner, lesser, may_go, place_of};
ghost use Rattle.edf_semantics.specs.Choice.{sooner_of, taken, with_inside};
ghost use Rattle.machine_semantics.specs.Image.{Image, Monitor};
ghost use Rattle.vm_state.specs.Board.{IsBoardOf, state_of};
ghost use Rattle.vm_state.specs.Plan.{IsOf};
ghost use Rattle.edf_machine.specs.Marks.{AreMarks};
ghost use Rattle.edf_machine.specs.Sights.{Looks, entry_of, entry_some};

use crate::marks::DeadlineState;
use vm_state::{ControlBlock, DecodedImage, DecodedProcess, MachineState, SchedulingState};
use vm_turn::ceiling_of;

/// A ready process: its number, the tick of its deadline, its rank, and whether its activation has
/// had a tick.
#[derive(Clone, Copy)]
struct ReadyProcess {
    place: usize,
    due: u64,
    rank: u16,
    begun: bool,
}

/// What was seen of the processes that were looked at: the first of those that are ready, the first
/// of those that have begun, and the least ceiling of a monitor that somebody is inside.
#[derive(Clone, Copy)]
struct Candidates {
    first: Option<ReadyProcess>,
    begun: Option<ReadyProcess>,
    least: Option<u16>,
}

/// Whether the first comes before: its deadline is sooner, or the same and its rank is less.
#[inline(always)]
fn is_sooner(a: &ReadyProcess, b: &ReadyProcess) -> bool
    ensures { result ≡ is_sooner (entry_of a.now) (entry_of b.now) }
{
    a.due < b.due || (a.due == b.due && a.rank < b.rank)
}

/// The one that comes before; of two alike the first.
#[inline(always)]
fn sooner_of(a: ReadyProcess, best: Option<ReadyProcess>) -> Option<ReadyProcess>
    ensures { entry_some result ≡ sooner_of (entry_of a) (entry_some best) }
{
    match best {
        Some(b) => { if is_sooner(&b, &a) { Some(b) } else { Some(a) } }
        None => Some(a),
    }
}

/// The lesser of a ceiling and another, if there is one.
#[inline(always)]
fn lesser(ceiling: u16, least: Option<u16>) -> Option<u16>
    ensures { result ≡ lesser ceiling least }
{
    match least {
        Some(other) => {
            if other < ceiling {
                Some(other)
            } else {
                Some(ceiling)
            }
        }
        None => Some(ceiling),
    }
}

/// The least ceiling, with that of the monitor that a process is inside.
#[inline(always)]
fn with_inside(ceilings: &[u16], inside: Option<u16>, least: Option<u16>) -> Option<u16>
    ensures { (image : Image) → map (λ (m : Monitor). m.ceiling) image.monitors ≡ ceilings.now →
        result ≡ with_inside image inside least }
{
    match inside {
        Some(monitor) => lesser(ceiling_of(ceilings, monitor), least),
        None => least,
    }
}

/// The first of those that have begun, with a process.
#[inline(always)]
fn with_begun(found: ReadyProcess, begun: Option<ReadyProcess>) -> Option<ReadyProcess>
    ensures yes { found.begun ≡ true →
        entry_some result ≡ sooner_of (entry_of found) (entry_some begun) }
    ensures no { found.begun ≡ false → entry_some result ≡ entry_some begun }
{
    if !found.begun {
        return begun;
    }
    sooner_of(found, begun)
}

/// What is seen once a process is looked at too, after all those with greater numbers.
#[inline(always)]
fn look(
    plan: &DecodedImage,
    process: &DecodedProcess,
    cell: &ControlBlock,
    mark: &DeadlineState,
    place: usize,
    sight: Candidates,
) -> Candidates
    ensures { Looks plan.now process.now cell.now mark.now place sight result }
{
    let SchedulingState::Ready = cell.stand else {
        return sight;
    };
    let found = ReadyProcess {
        place,
        due: mark.due,
        rank: process.rank,
        begun: mark.begun,
    };
    Candidates {
        first: sooner_of(found, sight.first),
        begun: with_begun(found, sight.begun),
        least: with_inside(&plan.ceilings, cell.job.inside, sight.least),
    }
}

/// Whether a process may go: its activation has had a tick, or no monitor is occupied, or its rank
/// is below the least ceiling.
fn may_go(found: &ReadyProcess, least: Option<u16>) -> bool
    ensures { result ≡ may_go (entry_of found.now) least }
{
    match least {
        Some(ceiling) => found.begun || found.rank < ceiling,
        None => true,
    }
}

/// The first that is ready, if it may go; else the first of those that have begun.
fn taken(sight: Candidates) -> Option<usize>
    ensures { result ≡
        taken sight.least (place_of (entry_some sight.begun)) (entry_some sight.first) }
{
    let Some(first) = sight.first else {
        return None;
    };
    if may_go(&first, sight.least) {
        return Some(first.place);
    }
    match sight.begun {
        Some(found) => Some(found.place),
        None => None,
    }
}

/// The process that is chosen: of those that are ready the one with the soonest deadline, of two
/// alike the one of the less rank, if its activation has had a tick, or no monitor is occupied, or
/// its rank is below the least ceiling of those that are; else the first in this order whose
/// activation has had a tick. `None` where there is none.
pub(crate) fn choose(
    plan: &DecodedImage,
    board: &MachineState,
    marks: &[DeadlineState],
) -> Option<usize>
    requires { (image : Image) × (known : List Mark) × IsOf image plan.now ×
        IsBoardOf image board.now × AreMarks image marks.now known }
    ensures { (image : Image) (known : List Mark) → IsOf image plan.now →
        IsBoardOf image board.now → AreMarks image marks.now known →
        result ≡ choose image (state_of board.now).threads known }
{
    let mut sight = Candidates {
        first: None,
        begun: None,
        least: None,
    };
    let mut place = marks.len();
    'all: while place > 0 {
        place -= 1;
        sight = look(
            plan,
            &plan.processes[place],
            &board.cells[place],
            &marks[place],
            place,
            sight,
        );
    }
    taken(sight)
}
