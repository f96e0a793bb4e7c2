//! The numbers of the parts of validity, as refusals tell them behind a `V`.

/// The code of each routine and process is that of its tree, and is where it should be.
pub const SHAPE: u8 = 1;
/// The declared costs.
pub const COSTS: u8 = 2;
/// The declared sizes.
pub const SIZES: u8 = 3;
/// The ranks, the ceilings and the blocks.
pub const RANKS: u8 = 4;
/// The bounds.
pub const BOUNDS: u8 = 5;
/// The operands of the instructions.
pub const OPERANDS: u8 = 6;
/// The handlers.
pub const HANDLERS: u8 = 7;
