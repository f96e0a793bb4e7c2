//! What is known of routines, and what is found of code.

use base::Cost;

/// What stands for every depth above 4,096.
pub const TOO_DEEP: u32 = 4_097;

/// What is known of a routine that may be called.
#[derive(Clone, Copy)]
pub struct RoutineCost {
    /// How many arguments it takes.
    pub params: u16,
    /// Whether it gives a value back.
    pub result: bool,
    /// The words of all its locals.
    pub locals: u32,
    /// The greatest height in its code, with those of the routines that it calls.
    pub depth: u32,
    /// What it costs at most.
    pub cost: Cost,
}

/// What a piece of code stands in.
#[derive(Clone, Copy)]
pub struct CodeContext {
    /// The address behind the innermost loop.
    pub out: Option<usize>,
    /// The monitor that is held.
    pub held: Option<u16>,
}

/// What a piece of code comes to.
#[derive(Clone, Copy)]
pub struct CodeCost {
    /// The address behind it.
    pub next: usize,
    /// The height after it, from the innermost loop's counter on.
    pub height: usize,
    /// What it costs at most.
    pub cost: Cost,
    /// The greatest height in it, held at 4,097.
    pub depth: u32,
}

/// What the code of a whole part comes to.
#[derive(Clone, Copy)]
pub struct PartCost {
    pub found: CodeCost,
    /// The ticks from entering the monitor of an entry to leaving it, capped; 0 for other code.
    pub stay: u64,
}
