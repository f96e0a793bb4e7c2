//! The whole image.

ghost use Rattle.std.specs.Prelude.{◌≡◌, ◌≤◌, IfOk, filter_map, map};
ghost use Rattle.syntax_tree.specs.Placed.{placed, plain};
ghost use Rattle.source_semantics.specs.Names.{event_in, monitors, processes};
ghost use Rattle.image.specs.Raw.{image_of, monitor_of, process_of, routine_of};
ghost use Rattle.code_spec.specs.Numbering.{numbered};
ghost use Rattle.codegen_spec.specs.Held.{Holds};
ghost use Rattle.code_measures.specs.Declared.{Declares};
ghost use Rattle.code_cost.specs.Sizes.{AreDefined};
ghost use Rattle.built_image.specs.Named.{names_of};
ghost use Rattle.compile_image.specs.Fields.{FitsFields, HasParts};
ghost use Rattle.compile_image.specs.Rows.{FitAll};
ghost use Rattle.compile_image.specs.Told.{monitors_told, processes_told, routines_told};

use crate::errors::tri;
use crate::image_names;
use crate::parts::{ImageParts, parts_of};
use code_cost::Measures;
use codegen_spec::Code;
use image::{ImageNames, RawImage};
use machine_isa::Instr;
use out_of_memory::OutOfMemory;
use std::alloc::Global;
use syntax_tree::{List, Name, Program};

/// The instructions of the code.
fn instructions(code: Code) -> List<Instr>
    ensures { result ≡ code.instrs }
{
    code.instrs
}

/// The name of a program, the names in its image, and the parts of the image.
#[derive(Drop)]
struct NamedParts {
    program: Name,
    names: ImageNames,
    parts: ImageParts,
}

/// The image of these parts and this code.
fn with_code(over: u16, named: NamedParts, code: Code) -> RawImage
    ensures program { result.program ≡ named.program }
    ensures names { result.names ≡ named.names }
    ensures over { result.overhead ≡ over }
    ensures monitors { result.monitors ≡ named.parts.monitors }
    ensures routines { result.routines ≡ named.parts.routines }
    ensures processes { result.processes ≡ named.parts.processes }
    ensures code { result.code ≡ code.instrs }
{
    let NamedParts {
        program,
        names,
        parts,
    } = named;
    RawImage {
        overhead: over,
        program,
        names,
        monitors: parts.monitors,
        routines: parts.routines,
        processes: parts.processes,
        code: instructions(code),
    }
}

/// The names and the parts of the image, where each part fits its fields.
fn named_parts(
    alloc: Global,
    program: &Program,
    over: u16,
    code: &Code,
    measures: &Measures,
) -> Result<NamedParts, OutOfMemory>
    requires over { over ≤ 1000 }
    requires fits { FitAll (plain (placed program.now)) code.now measures.now }
    ensures program { IfOk result (λ named. named.program ≡ (placed program.now).name) }
    ensures names { IfOk result (λ named. named.names ≡ names_of (plain (placed program.now))) }
    ensures monitors { IfOk result (λ named. map monitor_of named.parts.monitors ≡
        monitors_told (plain (placed program.now)) 0 (monitors (plain (placed program.now)))) }
    ensures routines { IfOk result (λ named. map routine_of named.parts.routines ≡
        routines_told (numbered (plain (placed program.now))) code.now.routines
        measures.now.routines) }
    ensures processes { IfOk result (λ named. map process_of named.parts.processes ≡
        processes_told (plain (placed program.now)) (filter_map event_in
        (plain (placed program.now)).decls) over (processes
        (plain (placed program.now))) code.now.processes measures.now.processes) }
{
    let name = tri!(Name::new(alloc, program.name.as_bytes()));
    let names = tri!(image_names(alloc, program));
    let parts = tri!(parts_of(alloc, program, over, code, measures));
    Ok(NamedParts {
        program: name,
        names,
        parts,
    })
}

/// The image of a program with an overhead of at most 1,000 ticks, put together from its code and
/// its measures; its ranks, ceilings, blocks and bounds are 0. It takes time in proportion to the
/// text and its code, and fails only where memory is wanting.
pub fn assemble(
    alloc: Global,
    program: &Program,
    over: u16,
    code: Code,
    measures: &Measures,
) -> Result<RawImage, OutOfMemory>
    requires over { over ≤ 1000 }
    requires defined { AreDefined (plain (placed program.now)) measures.now }
    requires parts { HasParts (plain (placed program.now)) code }
    requires fits { FitsFields (plain (placed program.now)) code }
    ensures program { IfOk result (λ raw. raw.program ≡ (placed program.now).name) }
    ensures names { IfOk result (λ raw. raw.names ≡ names_of (plain (placed program.now))) }
    ensures over { IfOk result (λ raw. raw.overhead ≡ over) }
    ensures holds { IfOk result (λ raw. Holds (plain (placed program.now)) code (image_of raw)) }
    ensures declares { IfOk result (λ raw. Declares (plain (placed program.now)) (image_of raw)) }
{
    let named = tri!(named_parts(alloc, program, over, &code, measures));
    Ok(with_code(over, named, code))
}
