//! What stands declared at each place.

ghost use Rattle.std.specs.Prelude.{◌≡◌, OnOk, IfOk, List, ◌∷◌, [], map};
ghost use Rattle.syntax_tree.specs.Placed.{placed_var, placed_param, placed_routine, placed_member, placed_decl};
ghost use Rattle.syntax_tree.specs.declared.place.Place.{Place as SpecPlace};
ghost use Rattle.static_declarations.specs.Things.{Thing as SpecThing, learn, vars_things, params_things, routine_things, routines_things, member_things, members_things, decl_things, decls_things, other_thing};
ghost use Rattle.static_declarations.specs.Seen.{seen, known_things, Declared, nothing};

use crate::sort::{VarType, shape_of, sort_of};
use crate::thing::Entity;
use out_of_memory::OutOfMemory;
use static_names::PlaceMap;
use std::alloc::Global;
use std::hash::BuildHasherDefault;
use syntax_tree::{Declaration, Member, Param, Place, Program, Routine, Var};

/// What stands declared at each place, by line and column.
pub type Entities<'a> = PlaceMap<Entity<'a>>;

/// Keeps one more declaration.
fn keep<'a>(things: &mut Entities<'a>, place: Place, thing: Entity<'a>) -> Result<(), OutOfMemory>
    ensures { OnOk result ((more : List Declared) → learn (known_things things.new.entries) more ≡
        learn (known_things things.old.entries) ((place, seen thing.entry) ∷ more)) }
{
    things.insert((place.line, place.col), thing)?;
    Ok(())
}

fn vars<'a>(
    things: &mut Entities<'a>,
    owner: Option<Place>,
    list: &'a [Var],
) -> Result<(), OutOfMemory>
    ensures { OnOk result ((more : List Declared) → learn (known_things things.new.entries) more ≡
        learn (known_things things.old.entries)
        (vars_things owner (map placed_var list.now) more)) }
{
    for var in list {
        let shape = shape_of(&var.kind);
        keep(things, var.place, Entity::Variable { owner, shape })?;
    }
    Ok(())
}

fn params<'a>(
    things: &mut Entities<'a>,
    owner: Option<Place>,
    list: &'a [Param],
) -> Result<(), OutOfMemory>
    ensures { OnOk result ((more : List Declared) → learn (known_things things.new.entries) more ≡
        learn (known_things things.old.entries)
        (params_things owner (map placed_param list.now) more)) }
{
    for param in list {
        let shape = VarType::One(sort_of(&param.kind));
        keep(things, param.place, Entity::Variable { owner, shape })?;
    }
    Ok(())
}

/// A routine, its parameters and its variables.
fn routine<'a>(
    things: &mut Entities<'a>,
    is_entry: bool,
    routine: &'a Routine,
) -> Result<(), OutOfMemory>
    ensures { OnOk result ((more : List Declared) → learn (known_things things.new.entries) more ≡
        learn (known_things things.old.entries)
        (routine_things is_entry (placed_routine routine.now) more)) }
{
    keep(things, routine.place, Entity::Routine { is_entry, routine })?;
    params(things, Some(routine.place), routine.params.as_slice())?;
    vars(things, Some(routine.place), routine.vars.as_slice())?;
    Ok(())
}

fn routines<'a>(
    things: &mut Entities<'a>,
    is_entry: bool,
    list: &'a [Routine],
) -> Result<(), OutOfMemory>
    ensures { OnOk result ((more : List Declared) → learn (known_things things.new.entries) more ≡
        learn (known_things things.old.entries)
        (routines_things is_entry (map placed_routine list.now) more)) }
{
    for one in list {
        routine(things, is_entry, one)?;
    }
    Ok(())
}

fn member<'a>(things: &mut Entities<'a>, member: &'a Member) -> Result<(), OutOfMemory>
    ensures { OnOk result ((more : List Declared) → learn (known_things things.new.entries) more ≡
        learn (known_things things.old.entries) (member_things (placed_member member.now) more)) }
{
    match member {
        Member::Var(var) => {
            let shape = shape_of(&var.kind);
            keep(things, var.place, Entity::Variable { owner: None, shape })?;
        }
        Member::Condition { place, .. } => {
            keep(things, *place, Entity::Other)?;
        }
    }
    Ok(())
}

fn members<'a>(things: &mut Entities<'a>, list: &'a [Member]) -> Result<(), OutOfMemory>
    ensures { OnOk result ((more : List Declared) → learn (known_things things.new.entries) more ≡
        learn (known_things things.old.entries)
        (members_things (map placed_member list.now) more)) }
{
    for one in list {
        member(things, one)?;
    }
    Ok(())
}

fn decl<'a>(things: &mut Entities<'a>, decl: &'a Declaration) -> Result<(), OutOfMemory>
    ensures { OnOk result ((more : List Declared) → learn (known_things things.new.entries) more ≡
        learn (known_things things.old.entries) (decl_things (placed_decl decl.now) more)) }
{
    match decl {
        Declaration::Const { place, .. } => keep(things, *place, Entity::Constant)?,
        Declaration::Device { place, is_out, .. } => {
            keep(things, *place, Entity::Device { is_out: *is_out })?;
        }
        Declaration::Event { place, .. } => keep(things, *place, Entity::Other)?,
        Declaration::Routine(one) => routine(things, false, one)?,
        Declaration::Monitor(monitor) => {
            keep(things, monitor.place, Entity::Other)?;
            members(things, monitor.members.as_slice())?;
            routines(things, true, monitor.entries.as_slice())?;
        }
        Declaration::Process(process) => {
            keep(things, process.place, Entity::Other)?;
            vars(things, None, process.vars.as_slice())?;
            routines(things, false, process.routines.as_slice())?;
        }
    }
    Ok(())
}

/// All that stands declared outside of statements, in declarations.
fn decls<'a>(things: &mut Entities<'a>, list: &'a [Declaration]) -> Result<(), OutOfMemory>
    ensures { OnOk result ((more : List Declared) → learn (known_things things.new.entries) more ≡
        learn (known_things things.old.entries) (decls_things (map placed_decl list.now) more)) }
{
    for one in list {
        decl(things, one)?;
    }
    Ok(())
}

/// All that a program declares outside of statements, its own name included.
pub fn things<'a>(alloc: Global, program: &'a Program) -> Result<Entities<'a>, OutOfMemory>
    ensures { IfOk result (λ things. known_things things.entries ≡
        learn nothing (decls_things (map placed_decl program.now.decls)
        ((program.now.place, other_thing) ∷ []))) }
{
    let most = program.decls.len().saturating_add(1);
    let mut things = Entities::with_capacity_and_hasher(alloc, most, BuildHasherDefault::new())?;
    decls(&mut things, program.decls.as_slice())?;
    keep(&mut things, program.place, Entity::Other)?;
    Ok(things)
}
