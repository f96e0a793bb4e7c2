//! The sorts of names, and those that operators take and give.

ghost use Rattle.std.specs.Prelude.{◌≡◌, Some, None, IsTrue, IsSome, ◌↔◌, if◌then◌else◌};
ghost use Rattle.syntax_tree.specs.Placed.{placed, op_of};
ghost use Rattle.static_declarations.specs.Things.{named_at};
ghost use Rattle.static_declarations.specs.Sorts.{fits as is_fit, alike as is_alike, gives as sort_given, takes as is_taken};
ghost use Rattle.static_types.specs.Sorts.{word_sort as sort_of_word, element_sort as sort_of_element, answer_sort as sort_of_answer, is_array as names_array};

use static_declarations::{Declarations, Entity, Sort, VarType, sort_of};
use syntax_tree::{Op, Place};

/// Whether a value of the sort may stand where `want` is asked for. What has no sort of its own
/// goes with every sort.
pub fn fits(want: Sort, sort: Option<Sort>) -> bool
    ensures { result ≡ is_fit want sort }
{
    match sort {
        None => true,
        Some(sort) => sort == want,
    }
}

/// Whether the two sorts go together.
pub fn alike(left: Option<Sort>, right: Option<Sort>) -> bool
    ensures { result ≡ is_alike left right }
{
    match left {
        None => true,
        Some(left) => fits(left, right),
    }
}

/// The sort of a name that stands for no array: that of its word, if it stands for one. `None` in
/// whole where it stands for an array.
pub fn word(declarations: &Declarations<'_>, place: Place) -> Option<Option<Sort>>
    ensures { let thing = named_at (placed declarations.now) place in result ≡
        (if names_array thing then None else Some (sort_of_word thing)) }
{
    match declarations.named(place) {
        Some(Entity::Constant | Entity::Loop) => Some(Some(Sort::Number)),
        Some(
            Entity::Variable {
                shape: VarType::One(sort),
                ..
            },
        ) => Some(Some(sort)),
        Some(
            Entity::Variable {
                shape: VarType::Many(_),
                ..
            },
        ) => None,
        _ => Some(None),
    }
}

/// The sort of the elements of a name that stands for an array, else `None`.
pub fn element_sort(declarations: &Declarations<'_>, place: Place) -> Option<Sort>
    ensures sort { result ≡ sort_of_element (named_at (placed declarations.now) place) }
    ensures is_array { IsTrue (names_array (named_at (placed declarations.now) place)) ↔ IsSome
        result }
{
    match declarations.named(place)? {
        Entity::Variable {
            shape: VarType::Many(sort),
            ..
        } => Some(sort),
        _ => None,
    }
}

/// The sort of what a function answers; a procedure answers nothing.
pub fn answer_sort(declarations: &Declarations<'_>, place: Place) -> Option<Sort>
    ensures { result ≡ sort_of_answer (named_at (placed declarations.now) place) }
{
    match declarations.named(place)? {
        Entity::Routine { routine, .. } => Some(sort_of(routine.result.as_ref()?)),
        _ => None,
    }
}

/// The sort of what an operator gives.
pub fn gives(op: Op) -> Sort
    ensures { result ≡ sort_given (op_of op) }
{
    match op {
        Op::Or
        | Op::And
        | Op::Equal
        | Op::Unequal
        | Op::Less
        | Op::LessEqual
        | Op::Greater
        | Op::GreaterEqual => Sort::Truth,
        Op::Add | Op::Sub | Op::Mul | Op::Div | Op::Mod => Sort::Number,
    }
}

/// Whether the operator may stand between operands of these sorts.
pub fn takes(op: Op, left: Option<Sort>, right: Option<Sort>) -> bool
    ensures { result ≡ is_taken (op_of op) left right }
{
    match op {
        Op::Or | Op::And => fits(Sort::Truth, left) && fits(Sort::Truth, right),
        Op::Equal | Op::Unequal => alike(left, right),
        Op::Less
        | Op::LessEqual
        | Op::Greater
        | Op::GreaterEqual
        | Op::Add
        | Op::Sub
        | Op::Mul
        | Op::Div
        | Op::Mod => fits(Sort::Number, left) && fits(Sort::Number, right),
    }
}
