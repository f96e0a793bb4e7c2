//! Variables and routines as the generator sees them.

use syntax_tree::{List, Name};

/// Where a variable lies.
#[derive(Clone, Copy)]
pub enum Area {
    Frame,
    Process,
    Monitor,
}

/// One word, or the words of an array from its lower bound on.
#[derive(Clone, Copy)]
pub enum VarShape {
    Single,
    Array { low: i32, len: i32 },
}

/// The range that values are checked against.
#[derive(Clone, Copy)]
pub struct ValueRange {
    pub low: i32,
    pub high: i32,
}

/// A variable: its first word in its area, its shape and its range, if any.
#[derive(Clone, Copy)]
pub struct VarLocation {
    pub area: Area,
    pub word: i32,
    pub shape: VarShape,
    pub range: Option<ValueRange>,
}

/// A loop around a statement: its variable and the word of the frame that holds it.
#[derive(Drop)]
pub struct Loop {
    pub name: Name,
    pub word: u128,
}

/// Whose text it is: the program's, or that of a process or monitor of this number.
#[derive(Clone, Copy)]
pub enum Owner {
    Program,
    Process { number: usize },
    Monitor { number: usize },
}

/// A routine or entry that a call names: its number, and the range of each parameter, if it has
/// one, in their order.
#[derive(Drop)]
pub struct Callee {
    pub number: usize,
    pub ranges: List<Option<ValueRange>>,
}
