//! The parts of an image but its processes.

ghost use Rattle.std.specs.Prelude.{◌≡◌, ◌≤◌, IfOk, length, map};
ghost use Rattle.machine_semantics.specs.Run.{words_of};
ghost use Rattle.vm_plan.specs.Called.{called_of};

use image_bytes::ImageBytes;
use machine_isa::Instr;
use out_of_memory::OutOfMemory;
use std::alloc::Global;
use vm_instructions::calls::RoutineHeader;

/// The code.
pub(crate) fn instructions(alloc: Global, image: &ImageBytes) -> Result<Vec<Instr>, OutOfMemory>
    ensures { IfOk result (λ code. code.items ≡ image.now.image.code) }
{
    let mut code = Vec::with_capacity(alloc, image.code_len() as usize)?;
    for at in 0..image.code_len() {
        code.push(image.instr(at))?;
    }
    Ok(code)
}

/// What a call needs to know of each routine.
pub(crate) fn routines(alloc: Global, image: &ImageBytes) -> Result<Vec<RoutineHeader>, OutOfMemory>
    ensures { IfOk result (λ called. called.items ≡ map called_of image.now.image.routines) }
{
    let mut called = Vec::with_capacity(alloc, usize::from(image.routines()))?;
    for number in 0..image.routines() {
        let routine = image.routine(number);
        called.push(RoutineHeader {
            params: usize::from(routine.params),
            locals: routine.locals as usize,
            start: routine.start as usize,
        })?;
    }
    Ok(called)
}

/// By condition its monitor.
pub(crate) fn conditions(alloc: Global, image: &ImageBytes) -> Result<Vec<u16>, OutOfMemory>
    ensures { IfOk result (λ monitors. monitors.items ≡ image.now.image.conditions) }
{
    image.names_are_its();
    let names = image.names().conditions.as_slice();
    let mut monitors = Vec::with_capacity(alloc, names.len())?;
    for name in names {
        monitors.push(name.mon)?;
    }
    Ok(monitors)
}

/// By monitor its ceiling.
pub(crate) fn ceilings(alloc: Global, image: &ImageBytes) -> Result<Vec<u16>, OutOfMemory>
    ensures { IfOk result (λ ceilings. ceilings.items ≡
        map (λ m. m.ceiling) image.now.image.monitors) }
{
    let mut ceilings = Vec::with_capacity(alloc, usize::from(image.monitors()))?;
    for number in 0..image.monitors() {
        ceilings.push(image.monitor(number).ceiling)?;
    }
    Ok(ceilings)
}

/// The words of all monitors.
pub(crate) fn words(image: &ImageBytes) -> usize
    requires { length image.now.image.monitors ≤ 64 }
    ensures { result ≡ words_of image.now.image.monitors }
{
    let mut words: usize = 0;
    for number in 0..image.monitors() {
        words += image.monitor(number).words as usize;
    }
    words
}

/// How many devices there are.
pub(crate) fn devices(image: &ImageBytes) -> usize
    ensures { result ≡ length image.now.image.devices }
{
    image.names_are_its();
    image.names().devices.len()
}
