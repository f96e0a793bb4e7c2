//! Which of the ready processes is to act.
//!
//! A process is taken before another by active rank, which is the ceiling of the monitor that it is
//! inside, else its own rank; at equal active ranks the one inside a monitor is taken. `Ranks`
//! keeps the ranks and ceilings of a program by number (`specs/Tables.antt`), and
//! `Ranks::is_first` tells whether no ready process is taken before the one asked for, exactly as
//! the source meaning has it.
//!
//! Ranks and ceilings by number.

ghost use Rattle.std.specs.Prelude.{◌≡◌, ◌<◌, ◌&&◌, ◌||◌, length, nat_eq, nat_lt, not, true};
ghost use Rattle.syntax_tree.specs.Plain.{Program};
ghost use Rattle.source_semantics.specs.Names.{processes};
ghost use Rattle.source_semantics.specs.Config.{is_ready as is_at_work};
ghost use Rattle.source_semantics.specs.Ranks.{active_rank as rank_now, comes_before as is_taken_before, is_inside, rank as rank_of};
ghost use Rattle.source_semantics.specs.Source.{before, is_empty, ready_from};
ghost use Rattle.replay_state.specs.View.{config_of, doing_of, holds_of};
ghost use Rattle.replay_state.specs.Tables.{AreRanksOf, Fits, are_free as are_all_free};

use crate::{Activity, Config, MonitorState};

/// The ranks of a program's processes and the ceilings of its monitors, by number.
#[derive(Drop)]
pub struct Ranks {
    pub ranks: Vec<u64>,
    /// `None` where nobody reaches the monitor.
    pub ceilings: Vec<Option<u64>>,
}

fn is_ready(doing: Activity) -> bool
    ensures { result ≡ is_at_work (doing_of doing) }
{
    match doing {
        Activity::Active { .. } => true,
        Activity::Idle | Activity::Waiting(_) => false,
    }
}

/// Whether nobody is inside any of the monitors.
fn are_free(holds: &[MonitorState<'_>]) -> bool
    ensures { result ≡ are_all_free (holds_of holds.now) }
{
    for hold in holds {
        if hold.occupant.is_some() {
            return false;
        }
    }
    true
}

/// How a process stands in the choice: its active rank, and whether it is inside a monitor.
#[derive(Clone, Copy)]
struct Standing {
    rank: u64,
    inside: bool,
}

/// Whether the process that stands so is taken before the one that stands as the second.
fn is_sooner(first: Standing, second: Standing) -> bool
    ensures { result ≡ (nat_lt first.rank second.rank ||
        (nat_eq first.rank second.rank && (first.inside && not second.inside))) }
{
    first.rank < second.rank || (first.rank == second.rank && first.inside && !second.inside)
}

impl Ranks {
    /// The rank of the process.
    fn rank(&self, process: usize) -> u64
        ghost program: { Program }
        requires ranks { AreRanksOf program self.now }
        requires process { process < length (processes program) }
        ensures { result ≡ rank_of program process }
    {
        self.ranks[process]
    }

    /// How the process stands: its active rank is the ceiling of the monitor that it is inside, else
    /// its rank.
    fn standing(&self, config: &Config<'_>, process: usize) -> Standing
        ghost program: { Program }
        requires ranks { AreRanksOf program self.now }
        requires fits { Fits program (config_of config.now) }
        requires process { process < length config.now.jobs.items }
        ensures rank { result.rank ≡ rank_now program (config_of config.now) process }
        ensures inside { result.inside ≡ is_inside (config_of config.now) process }
    {
        let rank = self.ranks[process];
        match config.inside(process) {
            None => Standing {
                rank,
                inside: false,
            },
            Some(mon) => Standing {
                rank: self.ceilings[mon].unwrap_or(rank),
                inside: true,
            },
        }
    }

    /// Whether the process is taken before another, which stands so.
    fn comes_before(&self, config: &Config<'_>, process: usize, other: usize, its: Standing) -> bool
        ghost program: { Program }
        requires ranks { AreRanksOf program self.now }
        requires fits { Fits program (config_of config.now) }
        requires process { process < length config.now.jobs.items }
        requires rank { its.rank ≡ rank_now program (config_of config.now) other }
        requires inside { its.inside ≡ is_inside (config_of config.now) other }
        ensures { result ≡ is_taken_before program (config_of config.now) process other }
    {
        is_sooner(self.standing(config, process), its)
    }

    /// Whether the process is taken before another, which has this rank, where nobody is inside a
    /// monitor.
    fn is_of_less_rank(&self, config: &Config<'_>, process: usize, other: usize, rank: u64) -> bool
        ghost program: { Program }
        requires ranks { AreRanksOf program self.now }
        requires fits { Fits program (config_of config.now) }
        requires free { are_all_free (config_of config.now).holds ≡ true }
        requires process { process < length config.now.jobs.items }
        requires rank { rank ≡ rank_of program other }
        ensures { result ≡ is_taken_before program (config_of config.now) process other }
    {
        self.rank(process) < rank
    }

    /// Whether no ready process is taken before this one, where nobody is inside a monitor: ranks
    /// alone tell it.
    fn is_first_by_rank(&self, config: &Config<'_>, process: usize) -> bool
        ghost program: { Program }
        requires ranks { AreRanksOf program self.now }
        requires fits { Fits program (config_of config.now) }
        requires free { are_all_free (config_of config.now).holds ≡ true }
        requires process { process < length config.now.jobs.items }
        ensures { result ≡ is_empty (before program (config_of config.now) process
            (ready_from 0 (config_of config.now).jobs)) }
    {
        let rank = self.rank(process);
        let jobs = config.jobs.as_slice();
        for (other, job) in jobs.iter().enumerate() {
            if is_ready(job.doing) && self.is_of_less_rank(config, other, process, rank) {
                return false;
            }
        }
        true
    }

    /// Whether no ready process is taken before this one.
    pub fn is_first(&self, config: &Config<'_>, process: usize) -> bool
        ghost program: { Program }
        requires ranks { AreRanksOf program self.now }
        requires fits { Fits program (config_of config.now) }
        requires process { process < length config.now.jobs.items }
        ensures { result ≡ is_empty (before program (config_of config.now) process
            (ready_from 0 (config_of config.now).jobs)) }
    {
        if are_free(config.holds.as_slice()) {
            self.is_first_by_rank(config, process)
        } else {
            self.is_first_by_standing(config, process)
        }
    }

    /// The same where somebody may be inside a monitor.
    fn is_first_by_standing(&self, config: &Config<'_>, process: usize) -> bool
        ghost program: { Program }
        requires ranks { AreRanksOf program self.now }
        requires fits { Fits program (config_of config.now) }
        requires process { process < length config.now.jobs.items }
        ensures { result ≡ is_empty (before program (config_of config.now) process
            (ready_from 0 (config_of config.now).jobs)) }
    {
        let its = self.standing(config, process);
        let jobs = config.jobs.as_slice();
        for (other, job) in jobs.iter().enumerate() {
            if is_ready(job.doing) && self.comes_before(config, other, process, its) {
                return false;
            }
        }
        true
    }
}
