//! Tables.

ghost use Rattle.std.specs.Prelude.{◌≡◌, ◌↔◌, IsTrue};
ghost use Rattle.sched_table.specs.Table.{IsTimely};

use base::Cost;
use syntax_tree::List;

/// The words of memory that a process needs.
#[derive(Clone, Copy, Debug)]
pub struct Size {
    /// The words of its variables.
    pub words: u32,
    /// The words of its stack.
    pub stack: u32,
}

/// The timing of a process. All but the rank, the waits of the cost and the size are ticks.
#[derive(Clone, Copy, Debug)]
pub struct Row {
    /// The ticks from one release to the next, at least.
    pub frame: u64,
    /// Within how many ticks of its release an activation has to end.
    pub deadline: u64,
    /// Ranks go from 1, which is the highest.
    pub rank: u16,
    /// What one activation costs at most, capped.
    pub cost: Cost,
    /// For how long a process of lower rank keeps it from running, at most.
    pub block: u64,
    /// The least response that is safe, and none where no response within the deadline is.
    pub bound: Option<u64>,
    /// Its memory.
    pub size: Size,
}

/// The timing of a program: its processes and its monitors in the order of the text.
#[derive(Debug, Drop)]
pub struct Table {
    /// One row for each process.
    pub rows: List<Row>,
    /// The ceiling of each monitor, and none for a monitor that no process uses.
    pub ceilings: List<Option<u16>>,
    /// The words of each monitor; none are here before they are set.
    pub monitor_words: List<u32>,
    /// The number of instructions, and 0 before it is set.
    pub code: u32,
}

impl Table {
    /// The table with the number of instructions and the words of each monitor.
    pub fn with_code(self, code: u32, words: List<u32>) -> Table
        ensures { result ≡ record self { code = code; monitor_words = words } }
    {
        Table {
            rows: self.rows,
            ceilings: self.ceilings,
            monitor_words: words,
            code,
        }
    }

    /// Whether each process has a bound.
    pub fn is_timely(&self) -> bool
        ensures { IsTrue result ↔ IsTimely self.now }
    {
        self.rows.as_slice().iter().all(|row| row.bound.is_some())
    }
}
