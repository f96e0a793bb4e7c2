//! What is in reach where a name stands.

ghost use Rattle.std.specs.Prelude.{◌≡◌, OnOk, List, []};
ghost use Rattle.static_names.specs.Reach.{through, or_else};
ghost use Rattle.static_names.specs.Occurrences.{Occurrence, uses, entry_names};
ghost use Rattle.static_names.specs.Findings.{note, noted};
ghost use Rattle.static_names.specs.Seen.{meaning_in, top_site, outer_site, site};

use crate::errors::tri;
use crate::findings::Findings;
use crate::kind::{Declared, Kind, NameUse};
use crate::scope::{Entries, Local, Scope, find, find_entry, find_in, find_in_loops};
use out_of_memory::OutOfMemory;
use syntax_tree::{Name, Place};

/// The program's names, and the entries of all monitors.
#[derive(Clone, Copy)]
pub struct TopScope<'s, 'a> {
    pub program: &'s Scope<'a>,
    pub entries: &'s Entries<'a>,
}

/// The scopes around routines: those at the top, and, where a monitor or process is around, its
/// names and the place of that monitor's name.
#[derive(Clone, Copy)]
pub struct OuterScopes<'s, 'a> {
    pub top: TopScope<'s, 'a>,
    pub members: Option<&'s Scope<'a>>,
    pub monitor: Option<Place>,
}

/// The scopes inside a routine, which has its own names, or outside of routines.
#[derive(Clone, Copy)]
pub struct ScopeChain<'s, 'a> {
    pub outer: OuterScopes<'s, 'a>,
    pub locals: Option<&'s Scope<'a>>,
}

impl<'s, 'a> TopScope<'s, 'a> {
    /// What is around a routine of the program.
    pub fn outside(&self) -> OuterScopes<'s, 'a>
        ensures { outer_site result ≡ top_site self.now }
    {
        OuterScopes {
            top: *self,
            members: None,
            monitor: None,
        }
    }
}

impl<'s, 'a> OuterScopes<'s, 'a> {
    /// What is around where no routine is.
    pub fn around(&self) -> ScopeChain<'s, 'a>
        ensures { site result [] ≡ outer_site self.now }
    {
        ScopeChain {
            outer: *self,
            locals: None,
        }
    }

    /// What a name means.
    pub fn means(&self, name: &[u8]) -> Option<Declared>
        ensures { result ≡ (outer_site self.now).means name.now }
    {
        match find_in(self.members, name) {
            Some(declared) => Some(declared),
            None => find(self.top.program, name),
        }
    }
}

impl<'s, 'a> ScopeChain<'s, 'a> {
    /// What a name means that is no loop variable.
    fn outside_loops(&self, name: &[u8]) -> Option<Declared>
        ensures { result ≡ or_else (meaning_in self.now.locals name.now)
            ((outer_site self.now.outer).means name.now) }
    {
        match find_in(self.locals, name) {
            Some(declared) => Some(declared),
            None => self.outer.means(name),
        }
    }

    /// What a name means.
    pub fn means(&self, loops: &[Local<'a>], name: &[u8]) -> Option<Declared>
        ensures { result ≡ (site self.now loops.now).means name.now }
    {
        match find_in_loops(loops, name, None) {
            Some(declared) => Some(declared),
            None => self.outside_loops(name),
        }
    }

    /// What a name means as a member of the monitor that the other means.
    fn member(&self, loops: &[Local<'a>], monitor: &[u8], name: &[u8]) -> Option<Declared>
        ensures { result ≡ through (site self.now loops.now) monitor.now name.now }
    {
        let declared = self.means(loops, monitor)?;
        if !matches!(declared.kind, Kind::Monitor) {
            return None;
        }
        if self.outer.monitor == Some(declared.place) {
            return find_in(self.outer.members, name);
        }
        find_entry(self.outer.top.entries, declared.place, name)
    }

    /// A name is used.
    pub fn use_name(
        &self,
        findings: &mut Findings,
        loops: &[Local<'a>],
        name: &Name,
        place: Place,
        want: NameUse,
    ) -> Result<(), OutOfMemory>
        ensures { OnOk result (findings.new ≡
            note findings.old (uses (site self.now loops.now) name.now place want)) }
    {
        findings.use_name(place, want, self.means(loops, name.as_bytes()))
    }

    /// A monitor is named, and behind the full stop one of its entries.
    pub fn use_entry(
        &self,
        findings: &mut Findings,
        loops: &[Local<'a>],
        monitor: (&Name, Place),
        entry: (&Name, Place),
    ) -> Result<(), OutOfMemory>
        ensures { OnOk result ((more : List Occurrence) → noted findings.new more ≡
            noted findings.old (entry_names (site self.now loops.now) monitor.entry.0.now
            monitor.entry.1 entry.entry.0.now entry.entry.1 more)) }
    {
        tri!(self.use_name(findings, loops, monitor.0, monitor.1, NameUse::Monitor));
        let member = self.member(loops, monitor.0.as_bytes(), entry.0.as_bytes());
        findings.use_name(entry.1, NameUse::Entry, member)
    }
}
