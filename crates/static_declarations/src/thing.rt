//! What a name is declared as.

use crate::sort::VarType;
use syntax_tree::{Place, Routine};

/// What a name is declared as.
#[derive(Clone, Copy)]
pub enum Entity<'a> {
    Constant,
    Device {
        is_out: bool,
    },
    /// A routine, or an entry of a monitor.
    Routine {
        is_entry: bool,
        routine: &'a Routine,
    },
    /// A parameter or variable. Its owner is the place of the name of the routine that it belongs
    /// to; a variable of a monitor or process has none.
    Variable {
        owner: Option<Place>,
        shape: VarType,
    },
    /// The variable of a loop.
    Loop,
    /// A program, event, monitor, process or condition.
    Other,
}
