//! A row of instructions.

ghost use Rattle.std.specs.Prelude.{◌≡◌};
ghost use Rattle.vm_instructions.specs.Rows.{Runs};
ghost use Rattle.vm_instructions.specs.Silent.{IsOf, own_of};
ghost use Rattle.vm_stretch.specs.Silent.{IsSafeFor};
ghost use Rattle.machine_semantics.specs.Image.{Image};

use crate::activation::Activation;
use crate::calls::RoutineHeader;
use crate::innermost::run_innermost;
use crate::step::go_beyond;
use crate::step_result::StepResult;
use crate::within::Within;
use machine_isa::Instr;

/// Why a row of instructions ended.
#[derive(Clone, Copy)]
pub enum Halt {
    /// All ticks passed.
    Spent,
    /// In the last of the ticks that passed an exception was raised; so many ticks are left.
    Raises { left: u64, number: u16 },
    /// The ticks of an instruction that others see have passed, and it is still to be done.
    Sees { left: u64 },
}

/// Runs a process, which has no ticks to burn, for so many ticks, up to an instruction that others
/// see or an exception.
pub fn run(
    code: &[Instr],
    routines: &[RoutineHeader],
    job: &mut Activation,
    owned: &mut [i32],
    shared: &mut [i32],
    budget: u64,
) -> Halt
    ghost image: { Image }
    requires image { IsOf image code.now routines.now }
    requires safe { IsSafeFor image job.old.frames.room
        (own_of job.old owned.old shared.old) budget }
    ensures runs { Runs image (own_of job.old owned.old shared.old) budget result
        (own_of job.new owned.new shared.new) }
    ensures room { job.new.frames.room ≡ job.old.frames.room }
{
    let mut left = budget;
    loop {
        let came = run_innermost(code, job, owned, shared, &mut left);
        if let Within::Done = came {
            return Halt::Spent;
        }
        match go_beyond(routines, job, owned, shared, came) {
            StepResult::Done => {}
            StepResult::Raises(number) => return Halt::Raises { left, number },
            StepResult::Seen => return Halt::Sees { left },
        }
    }
}
