//! What an instruction comes to.

/// What an instruction that others do not see comes to.
#[derive(Clone, Copy)]
pub enum StepResult {
    /// It is done.
    Done,
    /// It raises an exception.
    Raises(u16),
    /// It is none of these, and nothing was done.
    Seen,
}
