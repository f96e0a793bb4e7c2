//! Where a statement stands.

use syntax_tree::Place;

/// What a statement stands in: a procedure or process, an entry of a monitor, or a function that is
/// no entry, by the place of its name.
#[derive(Clone, Copy, Debug, PartialEq, Eq)]
pub enum StmtContext {
    Free,
    Entry,
    Function(Place),
}

/// Where a statement stands: in what, and whether in a loop of it.
#[derive(Clone, Copy, Debug, PartialEq, Eq)]
pub struct Where {
    pub home: StmtContext,
    pub in_loop: bool,
}
