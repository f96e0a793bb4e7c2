//! How deep calls can be nested.

ghost use Rattle.std.specs.Prelude.{◌≡◌, ◌≤◌, map, sum_by};
ghost use Rattle.syntax_tree.specs.Placed.{placed, placed_decl, plain, plain_decl};
ghost use Rattle.source_semantics.specs.Names.{routine_count as count_of, routines_in};

use static_declarations::Declarations;
use syntax_tree::Declaration;

/// How many routines or entries a declaration has.
fn routines_of(decl: &Declaration) -> usize
    ensures { result ≡ routines_in (plain_decl (placed_decl decl.now)) }
{
    match decl {
        Declaration::Routine(_) => 1,
        Declaration::Monitor(monitor) => monitor.entries.len(),
        Declaration::Process(process) => process.routines.len(),
        Declaration::Const { .. } | Declaration::Device { .. } | Declaration::Event { .. } => 0,
    }
}

/// How many routines and entries the declarations have.
fn routines_among(decls: &[Declaration]) -> usize
    requires { sum_by routines_in (map plain_decl (map placed_decl decls.now)) ≤ 512 }
    ensures { result ≡ sum_by routines_in (map plain_decl (map placed_decl decls.now)) }
{
    let mut count: usize = 0;
    for decl in decls {
        count += routines_of(decl);
    }
    count
}

/// How many routines and entries a program has: calls are nested at most so deep.
pub fn routine_count(declarations: &Declarations<'_>) -> usize
    requires { count_of (plain (placed declarations.now)) ≤ 512 }
    ensures { result ≡ count_of (plain (placed declarations.now)) }
{
    routines_among(declarations.program().decls.as_slice())
}
