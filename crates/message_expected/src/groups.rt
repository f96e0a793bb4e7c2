//! Kinds that are told by one name.

ghost use Rattle.std.specs.Prelude.{◌≡◌, ◌++◌, ◌∷◌, [], IfOk, OnOk, filter, map, not};
ghost use Rattle.message_expected.specs.Groups.{covers, expectations, groups as all_groups, is_covered};
ghost use Rattle.message_expected.specs.Groups.{members, name, stands};
ghost use Rattle.message_expected.specs.Kinds.{told as told_of};

use crate::kinds::{Kind, add_told, has};
use out_of_memory::OutOfMemory;
use std::alloc::Global;
use syntax::{keyword, sign};
use syntax_tree::{List, Text};

/// A group of kinds, which is told by one name where all of them are expected.
#[derive(Clone, Copy)]
pub enum Group {
    /// The words that begin a declaration.
    Declaration,
    /// The words that begin a statement.
    Statement,
    /// The words that begin an expression.
    Expression,
    /// The operators other than the comparisons.
    Operator,
    /// The comparisons.
    Comparison,
}

/// The groups in their order.
const GROUPS: [Group; 5] = [
    Group::Declaration,
    Group::Statement,
    Group::Expression,
    Group::Operator,
    Group::Comparison,
];

/// The words that begin a declaration.
const DECLARATION: [Kind; 7] = [
    Kind::Keyword { at: keyword::CONST },
    Kind::Keyword {
        at: keyword::DEVICE,
    },
    Kind::Keyword { at: keyword::EVENT },
    Kind::Keyword {
        at: keyword::MONITOR,
    },
    Kind::Keyword {
        at: keyword::PROCEDURE,
    },
    Kind::Keyword {
        at: keyword::FUNCTION,
    },
    Kind::Keyword {
        at: keyword::PROCESS,
    },
];

/// The words that begin a statement.
const STATEMENT: [Kind; 11] = [
    Kind::Name,
    Kind::Keyword { at: keyword::IF },
    Kind::Keyword { at: keyword::FOR },
    Kind::Keyword { at: keyword::EXIT },
    Kind::Keyword { at: keyword::PUT },
    Kind::Keyword { at: keyword::GET },
    Kind::Keyword { at: keyword::WAIT },
    Kind::Keyword {
        at: keyword::SIGNAL,
    },
    Kind::Keyword {
        at: keyword::BROADCAST,
    },
    Kind::Keyword {
        at: keyword::EXCEPT,
    },
    Kind::Keyword {
        at: keyword::ASSERT,
    },
];

/// The words that begin an expression.
const EXPRESSION: [Kind; 7] = [
    Kind::Name,
    Kind::Number,
    Kind::Keyword { at: keyword::NOT },
    Kind::Keyword { at: keyword::TRUE },
    Kind::Keyword { at: keyword::FALSE },
    Kind::Sign {
        at: sign::LEFT_PAREN,
    },
    Kind::Sign { at: sign::MINUS },
];

/// The operators other than the comparisons.
const OPERATOR: [Kind; 7] = [
    Kind::Keyword { at: keyword::AND },
    Kind::Keyword { at: keyword::OR },
    Kind::Keyword { at: keyword::DIV },
    Kind::Keyword { at: keyword::MOD },
    Kind::Sign { at: sign::PLUS },
    Kind::Sign { at: sign::MINUS },
    Kind::Sign { at: sign::TIMES },
];

/// The comparisons.
const COMPARISON: [Kind; 6] = [
    Kind::Sign { at: sign::EQUAL },
    Kind::Sign { at: sign::UNEQUAL },
    Kind::Sign { at: sign::LESS },
    Kind::Sign {
        at: sign::LESS_EQUAL,
    },
    Kind::Sign { at: sign::GREATER },
    Kind::Sign {
        at: sign::GREATER_EQUAL,
    },
];

/// The groups in their order.
#[tactic(auto, unfolding(crate::specs::Groups::groups))]
fn groups() -> &'static [Group]
    ensures { result.now ≡ all_groups }
{
    &GROUPS
}

/// What the group is called.
fn name(group: Group) -> &'static [u8]
    ensures { result.now ≡ name group }
{
    match group {
        Group::Declaration => b"a declaration",
        Group::Statement => b"a statement",
        Group::Expression => b"an expression",
        Group::Operator => b"an operator",
        Group::Comparison => b"a comparison",
    }
}

/// The kinds of the group.
pub fn members(group: Group) -> &'static [Kind]
    ensures { result.now ≡ members group }
{
    match group {
        Group::Declaration => &DECLARATION,
        Group::Statement => &STATEMENT,
        Group::Expression => &EXPRESSION,
        Group::Operator => &OPERATOR,
        Group::Comparison => &COMPARISON,
    }
}

/// Whether the group stands for its members, all of which are expected.
fn stands(found: &[Kind], group: Group) -> bool
    ensures { result ≡ stands found.now group }
{
    members(group).iter().all(|kind| has(found, *kind))
}

/// Whether the group stands for the kind.
fn covers(found: &[Kind], kind: Kind, group: Group) -> bool
    ensures { result ≡ covers found.now kind group }
{
    stands(found, group) && has(members(group), kind)
}

/// Whether a group stands for the kind.
fn is_covered(found: &[Kind], kind: Kind) -> bool
    ensures { result ≡ is_covered found.now kind }
{
    groups().iter().any(|group| covers(found, kind, *group))
}

/// Puts the name of the group to the others, if it stands for its members.
fn add_group(
    alloc: Global,
    found: &[Kind],
    group: Group,
    all: &mut List<Text>,
) -> Result<(), OutOfMemory>
    ensures { OnOk result
        (all.new ≡ all.old ++ map name (filter (stands found.now) (group ∷ []))) }
{
    if stands(found, group) {
        all.push(Text::from_bytes(alloc, name(group))?)?;
    }
    Ok(())
}

/// Puts the names of the groups that stand for their members to the others.
fn add_groups(alloc: Global, found: &[Kind], all: &mut List<Text>) -> Result<(), OutOfMemory>
    ensures { OnOk result
        (all.new ≡ all.old ++ map name (filter (stands found.now) all_groups)) }
{
    let groups = groups();
    for index in 0..groups.len() {
        add_group(alloc, found, groups[index], all)?;
    }
    Ok(())
}

/// What the kind is called.
fn told(alloc: Global, kind: Kind) -> Result<Text, OutOfMemory>
    ensures { IfOk result (λ text. text ≡ told_of kind) }
{
    let mut text = Text::new(alloc);
    add_told(&mut text, kind)?;
    Ok(text)
}

/// Puts what the kind is called to the others, if no group stands for it.
fn add_kind(
    alloc: Global,
    found: &[Kind],
    kind: Kind,
    all: &mut List<Text>,
) -> Result<(), OutOfMemory>
    ensures { OnOk result
        (all.new ≡ all.old ++ map told_of (filter (λ it. not (is_covered found.now it)) (kind ∷ []))) }
{
    if !is_covered(found, kind) {
        all.push(told(alloc, kind)?)?;
    }
    Ok(())
}

/// Puts what the kinds are called for which no group stands to the others.
fn add_kinds(alloc: Global, found: &[Kind], all: &mut List<Text>) -> Result<(), OutOfMemory>
    ensures { OnOk result
        (all.new ≡ all.old ++ map told_of (filter (λ it. not (is_covered found.now it)) found.now)) }
{
    for index in 0..found.len() {
        add_kind(alloc, found, found[index], all)?;
    }
    Ok(())
}

/// What is expected, as it is told: the groups that stand for their members, then the other kinds.
#[tactic(auto, unfolding(crate::specs::Groups::expectations))]
pub(crate) fn expectations(alloc: Global, found: &[Kind]) -> Result<List<Text>, OutOfMemory>
    ensures { IfOk result (λ all. all ≡ expectations found.now) }
{
    let mut all = List::new(alloc);
    add_groups(alloc, found, &mut all)?;
    add_kinds(alloc, found, &mut all)?;
    Ok(all)
}
