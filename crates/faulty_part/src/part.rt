//! A part of an image that is not valid, and what of it is wrong.

/// A part of an image, by its number among those of its kind, from 0; or the image as a whole.
#[derive(Clone, Copy, Debug, PartialEq, Eq)]
pub enum FaultyPart {
    Routine(usize),
    Process(usize),
    Monitor(usize),
    Whole,
}

/// What of a part is tested: its instructions, its code, its handler, or a number that it declares.
#[derive(Clone, Copy, Debug, PartialEq, Eq)]
pub enum Subject {
    /// The operand of an instruction.
    Operand,
    /// That it is the code of its tree and starts where it should; of the whole, that each address
    /// belongs to a routine or a process.
    Code,
    /// That it stands right behind the body, and reaches no wait.
    Handler,
    Run,
    Suspension,
    Waits,
    Stay,
    Locals,
    Stack,
    Base,
    /// The words over all.
    Words,
    Rank,
    Ceiling,
    Block,
    /// The bound, against its recurrence.
    Bound,
    /// The bound, against the deadline.
    Deadline,
}

/// A fault of validity: its part, what of that is wrong, and the two numbers that are shown.
#[derive(Clone, Copy, Debug, PartialEq, Eq)]
pub struct PartFault {
    pub part: FaultyPart,
    pub subject: Subject,
    pub a: u64,
    pub b: u64,
}
