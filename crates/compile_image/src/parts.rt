//! The monitors, routines and processes of an image.

ghost use Rattle.std.specs.Prelude.{◌≡◌, ◌≤◌, ◌++◌, ◌∷◌, IfOk, OnOk, List, filter_map, length, map};
ghost use Rattle.syntax_tree.specs.Plain.{Declaration as SpecDecl};
ghost use Rattle.syntax_tree.specs.Placed.{placed, placed_decl, plain, plain_decl};
ghost use Rattle.source_semantics.specs.Names.{event_in, monitors, processes};
ghost use Rattle.image.specs.Raw.{monitor_of, process_of, routine_of};
ghost use Rattle.code_spec.specs.Numbering.{numbered};
ghost use Rattle.code_names.specs.First.{names_of};
ghost use Rattle.compile_image.specs.Fields.{monitors_words};
ghost use Rattle.compile_image.specs.Rows.{FitAll, FitRows, FitSizes};
ghost use Rattle.compile_image.specs.Told.{monitors_told, processes_told, routines_told};

use crate::errors::tri;
use crate::monitors::raw_monitors;
use crate::processes::raw_processes;
use crate::routines::raw_routines;
use code_cost::Measures;
use code_layout::Tables;
use code_names::NameList;
use codegen_spec::Code;
use image::{RawMonitor, RawProcess, RawRoutine};
use out_of_memory::OutOfMemory;
use std::alloc::Global;
use syntax_tree::{Declaration, List, Program};

/// The parts of an image, each list in the order of the numbers.
#[derive(Drop)]
pub struct ImageParts {
    pub monitors: List<RawMonitor>,
    pub routines: List<RawRoutine>,
    pub processes: List<RawProcess>,
}

/// Lists what is declared, if it is an event.
fn list_event<'a>(names: &mut Vec<&'a [u8]>, decl: &'a Declaration) -> Result<(), OutOfMemory>
    ensures { OnOk result ((rest : List SpecDecl) → names_of names.new.items ++
        filter_map event_in rest ≡ names_of names.old.items ++
        filter_map event_in (plain_decl (placed_decl decl.now) ∷ rest)) }
{
    if let Declaration::Event { name, .. } = decl {
        names.push(name.as_bytes())?;
    }
    Ok(())
}

/// The events of a program.
fn event_names<'a>(alloc: Global, decls: &'a [Declaration]) -> Result<NameList<'a>, OutOfMemory>
    ensures { IfOk result (λ names. names ≡ filter_map event_in
        (map plain_decl (map placed_decl decls.now))) }
{
    let mut names = Vec::new(alloc);
    for decl in decls {
        tri!(list_event(&mut names, decl));
    }
    NameList::new(alloc, names)
}

/// The monitors of a program.
fn all_monitors(alloc: Global, tables: &Tables<'_>) -> Result<List<RawMonitor>, OutOfMemory>
    requires { monitors_words (plain (placed tables.now)) (monitors (plain (placed tables.now))) ≤
        1048576 }
    ensures { IfOk result (λ list. map monitor_of list ≡
        monitors_told (plain (placed tables.now)) 0 (monitors (plain (placed tables.now)))) }
{
    let directory = tables.numbering().directory();
    raw_monitors(alloc, tables.values(), directory.monitors())
}

/// The routines of a program by number.
fn all_routines(
    alloc: Global,
    tables: &Tables<'_>,
    code: &Code,
    measures: &Measures,
) -> Result<List<RawRoutine>, OutOfMemory>
    requires parts { length code.now.routines ≡ length (numbered (plain (placed tables.now))) }
    requires rows { length measures.now.routines ≡ length (numbered (plain (placed tables.now))) }
    requires fits { FitRows (numbered (plain (placed tables.now))) code.now.routines
        measures.now.routines }
    ensures { IfOk result (λ list. map routine_of list ≡
        routines_told (numbered (plain (placed tables.now))) code.now.routines
        measures.now.routines) }
{
    raw_routines(
        alloc,
        tables.numbering().order().as_slice(),
        code.routines.as_slice(),
        measures.routines.as_slice(),
    )
}

/// The processes of a program in the order of the text, where these are its events.
fn all_processes(
    alloc: Global,
    tables: &Tables<'_>,
    events: &NameList<'_>,
    over: u16,
    code: &Code,
    measures: &Measures,
) -> Result<List<RawProcess>, OutOfMemory>
    requires over { over ≤ 1000 }
    requires events { length events.now ≤ 64 }
    requires parts { length code.now.processes ≡ length (processes (plain (placed tables.now))) }
    requires sizes { length measures.now.processes ≡ length
        (processes (plain (placed tables.now))) }
    requires fits { FitSizes (plain (placed tables.now))
        (processes (plain (placed tables.now))) code.now.processes measures.now.processes }
    ensures { IfOk result (λ list. map process_of list ≡
        processes_told (plain (placed tables.now)) events.now over
        (processes (plain (placed tables.now))) code.now.processes measures.now.processes) }
{
    let directory = tables.numbering().directory();
    raw_processes(
        alloc,
        tables.values(),
        events,
        over,
        directory.processes(),
        code.processes.as_slice(),
        measures.processes.as_slice(),
    )
}

/// All parts, where these are the events of the program.
fn all_parts(
    alloc: Global,
    tables: &Tables<'_>,
    events: &NameList<'_>,
    over: u16,
    code: &Code,
    measures: &Measures,
) -> Result<ImageParts, OutOfMemory>
    requires over { over ≤ 1000 }
    requires events { length events.now ≤ 64 }
    requires fits { FitAll (plain (placed tables.now)) code.now measures.now }
    ensures monitors { IfOk result (λ parts. map monitor_of parts.monitors ≡
        monitors_told (plain (placed tables.now)) 0 (monitors (plain (placed tables.now)))) }
    ensures routines { IfOk result (λ parts. map routine_of parts.routines ≡
        routines_told (numbered (plain (placed tables.now))) code.now.routines
        measures.now.routines) }
    ensures processes { IfOk result (λ parts. map process_of parts.processes ≡
        processes_told (plain (placed tables.now)) events.now over
        (processes (plain (placed tables.now))) code.now.processes measures.now.processes) }
{
    let monitors = tri!(all_monitors(alloc, tables));
    let routines = tri!(all_routines(alloc, tables, code, measures));
    let processes = tri!(all_processes(alloc, tables, events, over, code, measures));
    Ok(ImageParts {
        monitors,
        routines,
        processes,
    })
}

/// The parts of the image of a program, where these are its tables.
fn parts_by_tables(
    alloc: Global,
    program: &Program,
    tables: &Tables<'_>,
    over: u16,
    code: &Code,
    measures: &Measures,
) -> Result<ImageParts, OutOfMemory>
    requires tables { tables.now ≡ program.now }
    requires over { over ≤ 1000 }
    requires fits { FitAll (plain (placed program.now)) code.now measures.now }
    ensures monitors { IfOk result (λ parts. map monitor_of parts.monitors ≡
        monitors_told (plain (placed program.now)) 0 (monitors (plain (placed program.now)))) }
    ensures routines { IfOk result (λ parts. map routine_of parts.routines ≡
        routines_told (numbered (plain (placed program.now))) code.now.routines
        measures.now.routines) }
    ensures processes { IfOk result (λ parts. map process_of parts.processes ≡
        processes_told (plain (placed program.now)) (filter_map event_in
        (plain (placed program.now)).decls) over (processes
        (plain (placed program.now))) code.now.processes measures.now.processes) }
{
    let events = tri!(event_names(alloc, program.decls.as_slice()));
    all_parts(alloc, tables, &events, over, code, measures)
}

/// The parts of the image of a program.
pub fn parts_of(
    alloc: Global,
    program: &Program,
    over: u16,
    code: &Code,
    measures: &Measures,
) -> Result<ImageParts, OutOfMemory>
    requires over { over ≤ 1000 }
    requires fits { FitAll (plain (placed program.now)) code.now measures.now }
    ensures monitors { IfOk result (λ parts. map monitor_of parts.monitors ≡
        monitors_told (plain (placed program.now)) 0 (monitors (plain (placed program.now)))) }
    ensures routines { IfOk result (λ parts. map routine_of parts.routines ≡
        routines_told (numbered (plain (placed program.now))) code.now.routines
        measures.now.routines) }
    ensures processes { IfOk result (λ parts. map process_of parts.processes ≡
        processes_told (plain (placed program.now)) (filter_map event_in
        (plain (placed program.now)).decls) over (processes
        (plain (placed program.now))) code.now.processes measures.now.processes) }
{
    let tables = tri!(Tables::new(alloc, program));
    parts_by_tables(alloc, program, &tables, over, code, measures)
}
