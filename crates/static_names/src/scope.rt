//! The names of one scope.

ghost use Rattle.std.specs.Prelude.{◌≡◌, OnOk, is_some};
ghost use Rattle.static_names.specs.Seen.{meaning, meaning_in, add as added, put, in_loops, entry_meaning, add_entry as entry_added};

use crate::errors::tri;
use crate::kind::Declared;
use indexmap::IndexMap;
use out_of_memory::OutOfMemory;
use syntax_tree::Place;

/// Names with where and as what they are declared, in the order of their declarations. Of two
/// equal names the first counts.
pub type Scope<'a> = IndexMap<&'a [u8], Declared>;

/// A loop variable.
#[derive(Clone, Copy)]
pub struct Local<'a> {
    pub name: &'a [u8],
    pub declared: Declared,
}

/// The entries of all monitors, by the place of the monitor's name.
pub type Entries<'a> = IndexMap<(u32, u32, &'a [u8]), Declared>;

/// Among so many names one is found sooner one by one than by its hash.
const FEW: usize = 4;

/// What a name is declared as in a scope, found one by one.
fn find_few(scope: &Scope<'_>, name: &[u8]) -> Option<Declared>
    ensures { result ≡ meaning scope.now.entries name.now }
{
    for (one, declared) in scope.iter() {
        if *one == name {
            return Some(*declared);
        }
    }
    None
}

/// What a name is declared as in a scope.
pub fn find(scope: &Scope<'_>, name: &[u8]) -> Option<Declared>
    ensures { result ≡ meaning scope.now.entries name.now }
{
    if scope.len() <= FEW {
        return find_few(scope, name);
    }
    scope.get(name).copied()
}

/// What a name is declared as in a scope, where there is one.
pub fn find_in(scope: Option<&Scope<'_>>, name: &[u8]) -> Option<Declared>
    ensures { result ≡ meaning_in scope.entry name.now }
{
    find(scope?, name)
}

/// Declares a name, in place of what the scope has.
pub fn set<'a>(scope: &mut Scope<'a>, name: &'a [u8], declared: Declared) -> Result<(), OutOfMemory>
    ensures { OnOk result (meaning scope.new.entries ≡
        put (meaning scope.old.entries) (name.now, declared)) }
{
    scope.insert(name, declared)?;
    Ok(())
}

/// Declares a name, unless it is taken: the scope has it.
pub fn add_unless<'a>(
    taken: bool,
    scope: &mut Scope<'a>,
    name: &'a [u8],
    declared: Declared,
) -> Result<(), OutOfMemory>
    requires { taken ≡ is_some (meaning scope.old.entries name.now) }
    ensures { OnOk result (meaning scope.new.entries ≡
        added (meaning scope.old.entries) (name.now, declared)) }
{
    if taken {
        return Ok(());
    }
    set(scope, name, declared)
}

/// Declares a name, unless the scope has it.
pub fn add<'a>(scope: &mut Scope<'a>, name: &'a [u8], declared: Declared) -> Result<(), OutOfMemory>
    ensures { OnOk result (meaning scope.new.entries ≡
        added (meaning scope.old.entries) (name.now, declared)) }
{
    let taken = find(scope, name).is_some();
    add_unless(taken, scope, name, declared)
}

/// What a name is in loops around it, and outside of them as given.
pub fn find_in_loops(loops: &[Local<'_>], name: &[u8], outer: Option<Declared>) -> Option<Declared>
    ensures { result ≡ in_loops name.now loops.now outer }
{
    let mut found = outer;
    for local in loops {
        if name == local.name {
            found = Some(local.declared);
        }
    }
    found
}

/// What an entry of the monitor at the place is.
pub fn find_entry(entries: &Entries<'_>, monitor: Place, name: &[u8]) -> Option<Declared>
    ensures { result ≡ entry_meaning entries.now.entries monitor name.now }
{
    entries.get(&(monitor.line, monitor.col, name)).copied()
}

/// Declares an entry of the monitor at the place, unless it has one of that name.
pub fn add_entry<'a>(
    entries: &mut Entries<'a>,
    monitor: Place,
    name: &'a [u8],
    declared: Declared,
) -> Result<(), OutOfMemory>
    ensures { OnOk result (entry_meaning entries.new.entries ≡
        entry_added (entry_meaning entries.old.entries) monitor (name.now, declared)) }
{
    if find_entry(entries, monitor, name).is_some() {
        return Ok(());
    }
    entries.insert((monitor.line, monitor.col, name), declared)?;
    Ok(())
}
