//! The words of variables.

ghost use Rattle.std.specs.Prelude.{◌≡◌, ◌+◌, List, ◌∷◌, map};
ghost use Rattle.syntax_tree.specs.Placed.{Decl as SpecDecl, Member as SpecMember, placed, placed_kind, placed_var, placed_member, placed_decl};
ghost use Rattle.syntax_tree.specs.declared.place.Place.{Place as SpecPlace};
ghost use Rattle.static_declarations.specs.Values.{value};
ghost use Rattle.static_numbers.specs.Counts.{placed_kind_size, vars_words, members_words, words as words_of, too_many_words as too_many_words_of};
ghost use Rattle.static_numbers.specs.Seen.{held};

use static_declarations::Declarations;
use syntax_tree::{Declaration, Member, Place, Type, Var};

/// The variables of processes and monitors have at most so many words.
const MOST_WORDS: u64 = 1_048_576;

/// The words of a variable: of an array its length.
fn of_kind(declarations: &Declarations<'_>, kind: &Type) -> u64
    ensures { result ≡ placed_kind_size (value (placed declarations.now)) (placed_kind kind.now) }
{
    match kind {
        Type::Scalar(_) => 1,
        Type::Array { low, high, .. } => {
            let length = declarations.value(high) - declarations.value(low) + 1;
            if length > 0 { length.unsigned_abs() } else { 0 }
        }
    }
}

/// The words of variables. This sum and those below stay at the greatest number of 64 bits.
fn of_vars(declarations: &Declarations<'_>, list: &[Var]) -> u64
    ensures { result ≡ held (vars_words (value (placed declarations.now))
        (map placed_var list.now)) }
{
    let mut words = 0u64;
    for var in list {
        words = words.saturating_add(of_kind(declarations, &var.kind));
    }
    words
}

fn of_member(declarations: &Declarations<'_>, member: &Member) -> u64
    ensures { (rest : List (SpecMember SpecPlace)) →
        held (result + members_words (value (placed declarations.now)) rest) ≡
        held (members_words (value (placed declarations.now)) (placed_member member.now ∷ rest)) }
{
    match member {
        Member::Var(var) => of_kind(declarations, &var.kind),
        Member::Condition { .. } => 0,
    }
}

fn of_members(declarations: &Declarations<'_>, list: &[Member]) -> u64
    ensures { result ≡ held (members_words (value (placed declarations.now))
        (map placed_member list.now)) }
{
    let mut words = 0u64;
    for member in list {
        words = words.saturating_add(of_member(declarations, member));
    }
    words
}

fn of_decl(declarations: &Declarations<'_>, decl: &Declaration) -> u64
    ensures { (rest : List (SpecDecl SpecPlace)) →
        held (result + words_of (value (placed declarations.now)) rest) ≡
        held (words_of (value (placed declarations.now)) (placed_decl decl.now ∷ rest)) }
{
    match decl {
        Declaration::Const { .. }
        | Declaration::Device { .. }
        | Declaration::Event { .. }
        | Declaration::Routine(_) => 0,
        Declaration::Monitor(monitor) => of_members(declarations, monitor.members.as_slice()),
        Declaration::Process(process) => of_vars(declarations, process.vars.as_slice()),
    }
}

fn of_decls(declarations: &Declarations<'_>, list: &[Declaration]) -> u64
    ensures { result ≡ held (words_of (value (placed declarations.now))
        (map placed_decl list.now)) }
{
    let mut words = 0u64;
    for decl in list {
        words = words.saturating_add(of_decl(declarations, decl));
    }
    words
}

/// The words of the variables of processes and monitors.
pub fn variable_words(declarations: &Declarations<'_>) -> u64
    ensures { let g = placed declarations.now in result ≡ held (words_of (value g) g.decls) }
{
    of_decls(declarations, declarations.program().decls.as_slice())
}

/// The place of the program's name, where the variables of processes and monitors have too many
/// words.
pub fn too_many_words(declarations: &Declarations<'_>) -> Option<Place>
    ensures { let g = placed declarations.now in result ≡ too_many_words_of (value g) g }
{
    if variable_words(declarations) > MOST_WORDS {
        Some(declarations.program().place)
    } else {
        None
    }
}
