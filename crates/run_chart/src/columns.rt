//! Columns of ticks.

/// The ticks that a chart shows, from `first` up to before `end`, in columns of `width` ticks each,
/// but for the last, which may be shorter.
#[derive(Clone, Copy)]
pub struct Columns {
    pub first: u64,
    pub end: u64,
    pub width: u64,
    /// How many columns there are, 0 to 100.
    pub count: usize,
}
