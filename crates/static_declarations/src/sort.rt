//! Sorts of values and shapes of variables.

ghost use Rattle.std.specs.Prelude.{◌≡◌};
ghost use Rattle.syntax_tree.specs.Placed.{placed_scalar, placed_kind};
ghost use Rattle.static_declarations.specs.Things.{sort_of as sort_of_scalar, shape_of as shape_of_kind};

use syntax_tree::{Scalar, Type};

/// The sort of a value. Whole numbers and subranges go together.
#[derive(Clone, Copy, PartialEq, Eq)]
pub enum Sort {
    Number,
    Truth,
}

/// What a variable holds: one word, or an array of words.
#[derive(Clone, Copy)]
pub enum VarType {
    One(Sort),
    Many(Sort),
}

/// The sort of the values of a type.
pub fn sort_of(kind: &Scalar) -> Sort
    ensures { result ≡ sort_of_scalar (placed_scalar kind.now) }
{
    match kind {
        Scalar::Int | Scalar::Subrange { .. } => Sort::Number,
        Scalar::Boolean => Sort::Truth,
    }
}

/// The shape of a variable of the type.
pub fn shape_of(kind: &Type) -> VarType
    ensures { result ≡ shape_of_kind (placed_kind kind.now) }
{
    match kind {
        Type::Scalar(kind) => VarType::One(sort_of(kind)),
        Type::Array { element, .. } => VarType::Many(sort_of(element)),
    }
}
