//! The bounds of types in a program, one pair after another.

ghost use Rattle.std.specs.Prelude.{◌≡◌, List, ◌∷◌, map};
ghost use Rattle.syntax_tree.specs.Placed.{placed_scalar, placed_kind, placed_var, placed_param, placed_routine, placed_member, placed_decl, optional};
ghost use Rattle.static_numbers.specs.Types.{Bounds as SpecBounds, scalar_bounds, kind_bounds, vars_bounds, params_bounds, result_bounds, routine_bounds, routines_bounds, member_bounds, members_bounds, decl_bounds, decls_bounds};
ghost use Rattle.static_numbers.specs.Seen.{Visited, bounds_of};

use crate::bounds::Bounds;
use syntax_tree::{Declaration, Member, Param, Routine, Scalar, Type, Var};

/// What is done at the bounds of types.
///
/// `found` says what comes of it, once these bounds are visited too.
pub trait BoundsVisitor {
    ghost Found: { Type 0 };

    ghost found: { Self → List SpecBounds → Found };

    /// Visits two bounds.
    fn visit(&mut self, bounds: &Bounds<'_>)
        ensures { (more : List SpecBounds) → found self.new more ≡
            found self.old (bounds_of bounds.now ∷ more) };
}

fn scalar<V: BoundsVisitor>(visitor: &mut V, kind: &Scalar)
    ensures { Visited V.found visitor.old (scalar_bounds (placed_scalar kind.now)) visitor.new }
{
    if let Scalar::Subrange { low, high } = kind {
        let bounds = Bounds {
            of_array: false,
            low,
            high,
        };
        visitor.visit(&bounds);
    }
}

fn kind<V: BoundsVisitor>(visitor: &mut V, kind: &Type)
    ensures { Visited V.found visitor.old (kind_bounds (placed_kind kind.now)) visitor.new }
{
    match kind {
        Type::Scalar(kind) => scalar(visitor, kind),
        Type::Array { low, high, element } => {
            let bounds = Bounds {
                of_array: true,
                low,
                high,
            };
            visitor.visit(&bounds);
            scalar(visitor, element);
        }
    }
}

fn vars<V: BoundsVisitor>(visitor: &mut V, list: &[Var])
    ensures { Visited V.found visitor.old (vars_bounds (map placed_var list.now)) visitor.new }
{
    for var in list {
        kind(visitor, &var.kind);
    }
}

fn params<V: BoundsVisitor>(visitor: &mut V, list: &[Param])
    ensures { Visited V.found visitor.old (params_bounds (map placed_param list.now)) visitor.new }
{
    for param in list {
        scalar(visitor, &param.kind);
    }
}

/// The type of a result.
fn result<V: BoundsVisitor>(visitor: &mut V, kind: &Option<Scalar>)
    ensures { Visited V.found visitor.old
        (result_bounds (optional placed_scalar kind.now)) visitor.new }
{
    if let Some(kind) = kind {
        scalar(visitor, kind);
    }
}

fn routine<V: BoundsVisitor>(visitor: &mut V, routine: &Routine)
    ensures { Visited V.found visitor.old
        (routine_bounds (placed_routine routine.now)) visitor.new }
{
    params(visitor, routine.params.as_slice());
    result(visitor, &routine.result);
    vars(visitor, routine.vars.as_slice());
}

fn routines<V: BoundsVisitor>(visitor: &mut V, list: &[Routine])
    ensures { Visited V.found visitor.old
        (routines_bounds (map placed_routine list.now)) visitor.new }
{
    for one in list {
        routine(visitor, one);
    }
}

fn member<V: BoundsVisitor>(visitor: &mut V, member: &Member)
    ensures { Visited V.found visitor.old (member_bounds (placed_member member.now)) visitor.new }
{
    if let Member::Var(var) = member {
        kind(visitor, &var.kind);
    }
}

fn members<V: BoundsVisitor>(visitor: &mut V, list: &[Member])
    ensures { Visited V.found visitor.old
        (members_bounds (map placed_member list.now)) visitor.new }
{
    for one in list {
        member(visitor, one);
    }
}

fn decl<V: BoundsVisitor>(visitor: &mut V, decl: &Declaration)
    ensures { Visited V.found visitor.old (decl_bounds (placed_decl decl.now)) visitor.new }
{
    match decl {
        Declaration::Const { .. } | Declaration::Device { .. } | Declaration::Event { .. } => {}
        Declaration::Routine(one) => routine(visitor, one),
        Declaration::Monitor(monitor) => {
            members(visitor, monitor.members.as_slice());
            routines(visitor, monitor.entries.as_slice());
        }
        Declaration::Process(process) => {
            vars(visitor, process.vars.as_slice());
            routines(visitor, process.routines.as_slice());
        }
    }
}

/// Is at all bounds of some declarations.
pub fn visit_bounds<V: BoundsVisitor>(visitor: &mut V, list: &[Declaration])
    ensures { Visited V.found visitor.old (decls_bounds (map placed_decl list.now)) visitor.new }
{
    for one in list {
        decl(visitor, one);
    }
}
