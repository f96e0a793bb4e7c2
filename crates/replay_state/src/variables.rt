//! Variables.

use syntax_tree::Name;

/// The range of values of a subrange.
#[derive(Clone, Copy)]
pub struct Subrange {
    pub low: i64,
    pub high: i64,
}

/// The words of an array from its lower bound on.
#[derive(Drop)]
pub struct Words {
    pub low: i64,
    pub items: Vec<i64>,
}

/// A word, or the words of an array.
#[derive(Drop)]
pub enum SlotValue {
    One(i64),
    Many(Words),
}

/// A variable, with the range that its values keep to, if any.
#[derive(Drop)]
pub struct Slot<'a> {
    pub name: &'a Name,
    pub range: Option<Subrange>,
    pub held: SlotValue,
}
