//! The code of a program and its measures.

ghost use Rattle.std.specs.Prelude.{◌≡◌, IfOk, IfErr, OnOk};
ghost use Rattle.syntax_tree.specs.Placed.{placed, plain};
ghost use Rattle.static_semantics.specs.Static.{IsChecked};
ghost use Rattle.code_cost.specs.Sizes.{AreDefined};
ghost use Rattle.code_cost.specs.Numbers.{HaveNumbers};
ghost use Rattle.compile.specs.Build.{KeepsSizes};
ghost use Rattle.compile.specs.Steps.{AreParts, IsSizeFault};

use crate::built::BuildFault;
use crate::loop_bounds_fit::loops_of_checked_programs_fit;
use built_image_law::premises_of_laws::checked_programs_are_ready;
use code_cost::{Measures, too_large};
use code_measures::cost_of_program::measures_are_defined;
use codegen::ProgramTexts;
use codegen_spec::Code;
use codegen_texts::ProgramNames;
use std::alloc::Global;
use syntax_tree::Program;

/// The code of a program, and what its texts cost.
#[derive(Drop)]
pub struct MeasuredCode {
    pub code: Code,
    pub measures: Measures,
}

/// Refuses a program that is too large, with the rule of size that fails first.
fn refuse_large(alloc: Global, program: &Program, measures: &Measures) -> Result<(), BuildFault>
    requires numbers { HaveNumbers (plain (placed program.now)) }
    requires defined { AreDefined (plain (placed program.now)) measures.now }
    ensures fits { OnOk result (KeepsSizes (placed program.now)) }
    ensures fault { IfErr result (IsSizeFault (placed program.now)) }
{
    match too_large(alloc, program, measures)? {
        None => Ok(()),
        Some(broken) => Err(BuildFault::TooLarge {
            number: broken.number,
            place: broken.place,
        }),
    }
}

/// The measures of a checked program that is not too large, from its texts.
fn measured(
    alloc: Global,
    program: &Program,
    texts: &ProgramTexts<'_, '_>,
) -> Result<Measures, BuildFault>
    requires checked { IsChecked (placed program.now) }
    requires texts { texts.now ≡ program.now }
    ensures defined { IfOk result (AreDefined (plain (placed program.now))) }
    ensures fits { OnOk result (KeepsSizes (placed program.now)) }
    ensures fault { IfErr result (IsSizeFault (placed program.now)) }
{
    checked_programs_are_ready();
    loops_of_checked_programs_fit();
    measures_are_defined();
    let measures = texts.measure(alloc)?;
    refuse_large(alloc, program, &measures)?;
    Ok(measures)
}

/// The code and the measures of a checked program, from its texts. It is measured first: no code is
/// made of a program that is too large.
fn parts_of_texts(
    alloc: Global,
    program: &Program,
    texts: &ProgramTexts<'_, '_>,
) -> Result<MeasuredCode, BuildFault>
    requires checked { IsChecked (placed program.now) }
    requires texts { texts.now ≡ program.now }
    ensures parts { IfOk result (AreParts (placed program.now)) }
    ensures fault { IfErr result (IsSizeFault (placed program.now)) }
{
    let measures = measured(alloc, program, texts)?;
    let code = texts.generate(alloc)?;
    Ok(MeasuredCode { code, measures })
}

/// The code and the measures of a checked program, from its names.
fn parts_of_names(
    alloc: Global,
    program: &Program,
    names: &ProgramNames<'_>,
) -> Result<MeasuredCode, BuildFault>
    requires checked { IsChecked (placed program.now) }
    requires names { names.now ≡ program.now }
    ensures parts { IfOk result (AreParts (placed program.now)) }
    ensures fault { IfErr result (IsSizeFault (placed program.now)) }
{
    let texts = ProgramTexts::new(alloc, names)?;
    parts_of_texts(alloc, program, &texts)
}

/// The code and the measures of a checked program.
pub fn parts_of(alloc: Global, program: &Program) -> Result<MeasuredCode, BuildFault>
    requires { IsChecked (placed program.now) }
    ensures parts { IfOk result (AreParts (placed program.now)) }
    ensures fault { IfErr result (IsSizeFault (placed program.now)) }
{
    let names = ProgramNames::new(alloc, program)?;
    parts_of_names(alloc, program, &names)
}

/// Refuses a checked program that is too large, from its names.
fn sized_by_names(
    alloc: Global,
    program: &Program,
    names: &ProgramNames<'_>,
) -> Result<(), BuildFault>
    requires checked { IsChecked (placed program.now) }
    requires names { names.now ≡ program.now }
    ensures fits { OnOk result (KeepsSizes (placed program.now)) }
    ensures fault { IfErr result (IsSizeFault (placed program.now)) }
{
    let texts = ProgramTexts::new(alloc, names)?;
    let _measures = measured(alloc, program, &texts)?;
    Ok(())
}

/// Refuses a checked program that is too large, with the rule of size that fails first; `TooLarge`
/// exactly where one does, else `Memory` where there is not enough memory. No code is made.
pub fn refuse_too_large(alloc: Global, program: &Program) -> Result<(), BuildFault>
    requires { IsChecked (placed program.now) }
    ensures fits { OnOk result (KeepsSizes (placed program.now)) }
    ensures fault { IfErr result (IsSizeFault (placed program.now)) }
{
    let names = ProgramNames::new(alloc, program)?;
    sized_by_names(alloc, program, &names)
}
