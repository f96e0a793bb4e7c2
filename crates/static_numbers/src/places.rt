//! Where things of each kind are declared.

ghost use Rattle.std.specs.Prelude.{◌≡◌, IfOk, OnOk, List, [], ◌∷◌, ◌++◌, map};
ghost use Rattle.syntax_tree.specs.Placed.{Decl as SpecDecl, placed, placed_member, placed_routine, placed_decl};
ghost use Rattle.syntax_tree.specs.declared.place.Place.{Place as SpecPlace};
ghost use Rattle.static_numbers.specs.Counts.{member_conditions};
ghost use Rattle.static_numbers.specs.Places.{with_decls, places_of};

use out_of_memory::OutOfMemory;
use std::alloc::Global;
use std::marker::Model;
use syntax_tree::{Declaration, Member, Place, Program, Routine};

/// The places of the names of things, by kind, each in the order of the text. Entries are among the
/// routines.
#[derive(Drop)]
pub struct NamePlaces {
    pub processes: Vec<Place>,
    pub monitors: Vec<Place>,
    pub devices: Vec<Place>,
    pub events: Vec<Place>,
    pub conditions: Vec<Place>,
    pub routines: Vec<Place>,
}

impl Model for NamePlaces {
    ghost use Rattle.static_numbers.specs.Places.{Places as Lists};

    ghost Value = { Lists };

    ghost view = { λ p. record { processes = p.processes.items; monitors = p.monitors.items; devices = p.devices.items; events = p.events.items; conditions = p.conditions.items; routines = p.routines.items } };
}

fn members(conditions: &mut Vec<Place>, list: &[Member]) -> Result<(), OutOfMemory>
    ensures { OnOk result (conditions.new.items ≡ conditions.old.items ++
        member_conditions (map placed_member list.now)) }
{
    for one in list {
        if let Member::Condition { place, .. } = one {
            conditions.push(*place)?;
        }
    }
    Ok(())
}

fn routines(routines: &mut Vec<Place>, list: &[Routine]) -> Result<(), OutOfMemory>
    ensures { OnOk result (routines.new.items ≡ routines.old.items ++
        map (λ r. r.place) (map placed_routine list.now)) }
{
    for one in list {
        routines.push(one.place)?;
    }
    Ok(())
}

impl NamePlaces {
    fn new(alloc: Global) -> NamePlaces
        ensures { result ≡ record {
          processes = [];
          monitors = [];
          devices = [];
          events = [];
          conditions = [];
          routines = [];
        } }
    {
        NamePlaces {
            processes: Vec::new(alloc),
            monitors: Vec::new(alloc),
            devices: Vec::new(alloc),
            events: Vec::new(alloc),
            conditions: Vec::new(alloc),
            routines: Vec::new(alloc),
        }
    }

    fn decl(&mut self, decl: &Declaration) -> Result<(), OutOfMemory>
        ensures { OnOk result ((rest : List (SpecDecl SpecPlace)) → with_decls self.new rest ≡
            with_decls self.old (placed_decl decl.now ∷ rest)) }
    {
        match decl {
            Declaration::Const { .. } => {}
            Declaration::Device { place, .. } => self.devices.push(*place)?,
            Declaration::Event { place, .. } => self.events.push(*place)?,
            Declaration::Routine(routine) => self.routines.push(routine.place)?,
            Declaration::Monitor(monitor) => {
                self.monitors.push(monitor.place)?;
                members(&mut self.conditions, monitor.members.as_slice())?;
                routines(&mut self.routines, monitor.entries.as_slice())?;
            }
            Declaration::Process(process) => {
                self.processes.push(process.place)?;
                routines(&mut self.routines, process.routines.as_slice())?;
            }
        }
        Ok(())
    }

    /// Goes once through the declarations of a program.
    pub fn of(alloc: Global, program: &Program) -> Result<NamePlaces, OutOfMemory>
        ensures { IfOk result (λ places. places ≡ places_of (placed program.now)) }
    {
        let mut places = NamePlaces::new(alloc);
        for one in program.decls.as_slice() {
            places.decl(one)?;
        }
        Ok(places)
    }
}
