//! The names of a program.

ghost use Rattle.std.specs.Borrow.{Bor};
ghost use Rattle.std.specs.Prelude.{◌≡◌, OnOk, IfOk, List, ◌∷◌, [], is_some, map};
ghost use Rattle.syntax_tree.specs.Plain.{Name as PlainName};
ghost use Rattle.static_names.specs.declared.kind.Declared.{Declared as SpecDeclared};
ghost use Rattle.syntax_tree.specs.Placed.{Decl as PlacedDecl, placed_decl, placed_routine, placed};
ghost use Rattle.syntax_tree.specs.declared.place.Place.{Place as SpecPlace};
ghost use Rattle.static_names.specs.Occurrences.{Occurrence, decl_name, decls_names, entry_name, entries_at, program_name, others as others_of, names as names_of};
ghost use Rattle.static_names.specs.Reach.{first};
ghost use Rattle.static_names.specs.Findings.{noted};
ghost use Rattle.static_names.specs.Seen.{meaning, add as added, add_all, entry_meaning, add_entries, add_monitors, IsNext, nothing};

use crate::errors::tri;
use crate::findings::Findings;
use crate::kind::{Declared, Kind};
use crate::part::decl;
use crate::scope::{Entries, Scope, add, add_entry, add_unless, find, set};
use crate::scope_chain::TopScope;
use out_of_memory::OutOfMemory;
use std::alloc::Global;
use syntax_tree::{Declaration, Name, Place, Program, Routine};

/// Where a declaration has its name.
fn place_of(decl: &Declaration) -> Place
    ensures { result ≡ (decl_name (placed_decl decl.now)).1.place }
{
    match decl {
        Declaration::Const { place, .. }
        | Declaration::Device { place, .. }
        | Declaration::Event { place, .. } => *place,
        Declaration::Routine(routine) => routine.place,
        Declaration::Monitor(monitor) => monitor.place,
        Declaration::Process(process) => process.place,
    }
}

/// What a declaration declares its name as.
fn kind_of(decl: &Declaration) -> Kind
    ensures { result ≡ (decl_name (placed_decl decl.now)).1.kind }
{
    match decl {
        Declaration::Const { .. } => Kind::Constant,
        Declaration::Device { .. } => Kind::Device,
        Declaration::Event { .. } => Kind::Event,
        Declaration::Routine(_) => Kind::Routine,
        Declaration::Monitor(_) => Kind::Monitor,
        Declaration::Process(_) => Kind::Process,
    }
}

/// The name that a declaration declares.
fn name_of(decl: &Declaration) -> &[u8]
    ensures { result.now ≡ (decl_name (placed_decl decl.now)).0 }
{
    match decl {
        Declaration::Const { name, .. }
        | Declaration::Device { name, .. }
        | Declaration::Event { name, .. } => { name.as_bytes() }
        Declaration::Routine(routine) => routine.name.as_bytes(),
        Declaration::Monitor(monitor) => monitor.name.as_bytes(),
        Declaration::Process(process) => process.name.as_bytes(),
    }
}

/// Declares what is no constant.
fn other<'a>(scope: &mut Scope<'a>, decl: &'a Declaration) -> Result<(), OutOfMemory>
    ensures { OnOk result (meaning scope.new.entries ≡
        add_all (meaning scope.old.entries) (others_of (placed_decl decl.now ∷ []))) }
{
    let declared = Declared {
        place: place_of(decl),
        kind: kind_of(decl),
    };
    match decl {
        Declaration::Const { .. } => Ok(()),
        Declaration::Device { name, .. } | Declaration::Event { name, .. } => add(
            scope,
            name.as_bytes(),
            declared,
        ),
        Declaration::Routine(routine) => add(scope, routine.name.as_bytes(), declared),
        Declaration::Monitor(monitor) => add(scope, monitor.name.as_bytes(), declared),
        Declaration::Process(process) => add(scope, process.name.as_bytes(), declared),
    }
}

fn others<'a>(scope: &mut Scope<'a>, list: &'a [Declaration]) -> Result<(), OutOfMemory>
    ensures { OnOk result (meaning scope.new.entries ≡
        add_all (meaning scope.old.entries) (others_of (map placed_decl list.now))) }
{
    for one in list {
        tri!(other(scope, one));
    }
    Ok(())
}

/// The entries of a monitor.
fn entries<'a>(
    entries: &mut Entries<'a>,
    monitor: Place,
    list: &'a [Routine],
) -> Result<(), OutOfMemory>
    ensures { OnOk result (entry_meaning entries.new.entries ≡
        add_entries (entry_meaning entries.old.entries) monitor
        (map entry_name (map placed_routine list.now))) }
{
    for entry in list {
        let declared = Declared {
            place: entry.place,
            kind: Kind::Entry,
        };
        tri!(add_entry(entries, monitor, entry.name.as_bytes(), declared));
    }
    Ok(())
}

/// The entries of a declaration, where it is a monitor.
fn monitor<'a>(all: &mut Entries<'a>, decl: &'a Declaration) -> Result<(), OutOfMemory>
    ensures { OnOk result (entry_meaning all.new.entries ≡
        add_monitors (entry_meaning all.old.entries) (placed_decl decl.now ∷ [])) }
{
    if let Declaration::Monitor(monitor) = decl {
        return entries(all, monitor.place, monitor.entries.as_slice());
    }
    Ok(())
}

fn monitors<'a>(all: &mut Entries<'a>, list: &'a [Declaration]) -> Result<(), OutOfMemory>
    ensures { OnOk result (entry_meaning all.new.entries ≡
        add_monitors (entry_meaning all.old.entries) (map placed_decl list.now)) }
{
    for one in list {
        tri!(monitor(all, one));
    }
    Ok(())
}

/// A constant reaches from here on, before what is declared later, unless its name is taken by what
/// is declared before.
fn reveal<'a>(
    taken: bool,
    program: &mut Scope<'a>,
    decl: &'a Declaration,
) -> Result<(), OutOfMemory>
    ensures { OnOk result ((seen : List (Bor PlainName × SpecDeclared))
        (rest : List (PlacedDecl SpecPlace)) →
        taken ≡ is_some (meaning seen (decl_name (placed_decl decl.now)).0) →
        meaning program.old.entries ≡
        add_all (meaning seen) (others_of (placed_decl decl.now ∷ rest)) →
        meaning program.new.entries ≡ add_all
        (added (meaning seen) (decl_name (placed_decl decl.now))) (others_of rest)) }
{
    if let Declaration::Const { name, place, .. } = decl {
        if taken {
            return Ok(());
        }
        let declared = Declared {
            place: *place,
            kind: Kind::Constant,
        };
        return set(program, name.as_bytes(), declared);
    }
    Ok(())
}

/// The next declaration, those before it being seen.
fn next<'a>(
    alloc: Global,
    findings: &mut Findings,
    program: &mut Scope<'a>,
    seen: &mut Scope<'a>,
    entries: &Entries<'a>,
    one: &'a Declaration,
) -> Result<(), OutOfMemory>
    ensures { OnOk result ((rest : List (PlacedDecl SpecPlace)) →
        IsNext (entry_meaning entries.now.entries) findings.old (meaning program.old.entries)
        (meaning seen.old.entries) (placed_decl one.now ∷ rest) findings.new
        (meaning program.new.entries) (meaning seen.new.entries) rest) }
{
    let declared = Declared {
        place: place_of(one),
        kind: kind_of(one),
    };
    let taken = find(seen, name_of(one)).is_some();
    findings.declare(declared.place, taken);
    tri!(decl(alloc, findings, &TopScope { program, entries }, one));
    tri!(reveal(taken, program, one));
    add_unless(taken, seen, name_of(one), declared)
}

fn decls<'a>(
    alloc: Global,
    findings: &mut Findings,
    program: &mut Scope<'a>,
    seen: &mut Scope<'a>,
    entries: &Entries<'a>,
    list: &'a [Declaration],
) -> Result<(), OutOfMemory>
    ensures { OnOk result (IsNext (entry_meaning entries.now.entries) findings.old
        (meaning program.old.entries) (meaning seen.old.entries)
        (map placed_decl list.now) findings.new (meaning program.new.entries)
        (meaning seen.new.entries) []) }
{
    for one in list {
        tri!(next(alloc, findings, program, seen, entries, one));
    }
    Ok(())
}

/// The names in reach of the first declaration, and those before it: the program's own.
fn start<'a>(
    names: &mut Scope<'a>,
    seen: &mut Scope<'a>,
    program: &'a Program,
) -> Result<(), OutOfMemory>
    ensures names { OnOk result (meaning names.new.entries ≡
        add_all (added (meaning names.old.entries) (program_name (placed program.now)))
        (others_of (placed program.now).decls)) }
    ensures seen { OnOk result (meaning seen.new.entries ≡
        added (meaning seen.old.entries) (program_name (placed program.now))) }
{
    let own = Declared {
        place: program.place,
        kind: Kind::Program,
    };
    tri!(add(seen, program.name.as_bytes(), own));
    tri!(add(names, program.name.as_bytes(), own));
    others(names, program.decls.as_slice())
}

/// The names of all declarations, the entries being known, and the maps of names being empty.
fn body_with<'a>(
    alloc: Global,
    findings: &mut Findings,
    names: &mut Scope<'a>,
    seen: &mut Scope<'a>,
    entries: &Entries<'a>,
    program: &'a Program,
) -> Result<(), OutOfMemory>
    requires names { names.old.entries ≡ [] }
    requires seen { seen.old.entries ≡ [] }
    ensures { let g = placed program.now in OnOk result
        ((more : List Occurrence) → noted findings.new more ≡
        noted findings.old (decls_names (entry_meaning entries.now.entries)
        (program_name g ∷ []) g.decls more)) }
{
    tri!(start(names, seen, program));
    decls(
        alloc,
        findings,
        names,
        seen,
        entries,
        program.decls.as_slice(),
    )
}

/// The names of all declarations, the entries being known.
fn body<'a>(
    alloc: Global,
    findings: &mut Findings,
    entries: &Entries<'a>,
    program: &'a Program,
) -> Result<(), OutOfMemory>
    ensures { let g = placed program.now in OnOk result
        ((more : List Occurrence) → noted findings.new more ≡
        noted findings.old (decls_names (entry_meaning entries.now.entries)
        (program_name g ∷ []) g.decls more)) }
{
    let most = program.decls.len().saturating_add(1);
    let mut names = Scope::with_capacity(alloc, most)?;
    let mut seen = Scope::with_capacity(alloc, most)?;
    body_with(alloc, findings, &mut names, &mut seen, entries, program)
}

/// The names of all declarations.
fn whole(alloc: Global, findings: &mut Findings, program: &Program) -> Result<(), OutOfMemory>
    ensures { let g = placed program.now in OnOk result
        ((more : List Occurrence) → noted findings.new more ≡
        noted findings.old (decls_names (λ place. first (entries_at g.decls place))
        (program_name g ∷ []) g.decls more)) }
{
    let mut entries = Entries::new(alloc);
    tri!(monitors(&mut entries, program.decls.as_slice()));
    body(alloc, findings, &entries, program)
}

/// What is found of all names of a program.
pub fn findings(alloc: Global, program: &Program) -> Result<Findings, OutOfMemory>
    ensures { IfOk result (λ f. f ≡ noted nothing (names_of (placed program.now))) }
{
    let mut findings = Findings::new(alloc);
    tri!(whole(alloc, &mut findings, program));
    findings.close(&program.close, program.close_place, &program.name);
    Ok(findings)
}
