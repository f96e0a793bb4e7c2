//! A part of a program, and what is done at each of them.

ghost use Rattle.std.specs.Prelude.{◌≡◌, List, ◌∷◌, if◌then◌else◌};
ghost use Rattle.syntax_tree.specs.Placed.{placed_stmt};
ghost use Rattle.static_declarations.specs.Parts.{Part, stmt_place as place_of_stmt};

use static_declarations::Where;
use syntax_tree::{Expr, Place, Scalar, Stmt};

/// A part of a program.
#[derive(Clone, Copy)]
pub enum ProgramPart<'p> {
    /// A statement, and where it stands.
    Statement {
        here: Where,
        s: &'p Stmt,
    },
    /// The result of a function, at the function's name.
    Answer {
        name: Place,
        kind: &'p Scalar,
        value: &'p Expr,
    },
}

/// What is done at each part of a program, one after the other.
///
/// `found` says what comes of it once it has been at these parts too, and `ended` what comes of it
/// where it ends at a part.
pub trait PartVisitor {
    ghost use Rattle.static_parts.specs.Visits.{part_of};

    ghost Found: { Type 0 };

    ghost found: { Self → List Part → Found };

    ghost ended: { Self → Part → Found };

    /// What is done at a part, of a statement those in it aside; whether it ends there.
    fn visit(&mut self, part: ProgramPart<'_>) -> bool
        ensures { (more : List Part) → found self.old (part_of part.entry ∷ more) ≡
            (if result then ended self.new (part_of part.entry) else found self.new more) };
}

/// The place of a statement, which is that of its first token.
pub fn stmt_place(s: &Stmt) -> Place
    ensures { result ≡ place_of_stmt (placed_stmt s.now) }
{
    match s {
        Stmt::Assign { target, .. }
        | Stmt::AssignEntry { target, .. }
        | Stmt::AssignEmpty { target, .. } => target.place,
        Stmt::Call { place, .. }
        | Stmt::CallEntry { place, .. }
        | Stmt::If { place, .. }
        | Stmt::For { place, .. }
        | Stmt::ExitWhen { place, .. }
        | Stmt::Get { place, .. }
        | Stmt::Put { place, .. }
        | Stmt::Wait { place, .. }
        | Stmt::Signal { place, .. }
        | Stmt::Broadcast { place, .. }
        | Stmt::Except { place, .. }
        | Stmt::Assert { place, .. } => *place,
    }
}
