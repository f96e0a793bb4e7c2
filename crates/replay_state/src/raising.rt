//! Exceptions.

ghost use Rattle.std.specs.Prelude.{◌≡◌, ◌&&◌, IfOk, map, not, option_map};
ghost use Rattle.syntax_tree.specs.Placed.{placed, placed_constant, placed_process, plain, plain_constant, plain_process};
ghost use Rattle.source_semantics.specs.Names.{count_value};
ghost use Rattle.source_semantics.specs.Config.{changed, leave as left};
ghost use Rattle.source_semantics.specs.Source.{lists_constant};
ghost use Rattle.replay_state.specs.View.{config_of, jobs_of};
ghost use Rattle.replay_state.specs.Texts.{IsAfter, IsPrepared, IsText, after_of, after_put, raised_job};

use crate::queues::released;
use crate::{Activity, Call, Config, ProcessState, beginning};
use out_of_memory::OutOfMemory;
use static_declarations::Declarations;
use std::alloc::Global;
use syntax_tree::{Constant, Handler, Process};

/// The text of a program: its declarations, and its processes by number.
#[derive(Drop)]
pub struct ProgramContext<'a> {
    pub declarations: &'a Declarations<'a>,
    pub processes: Vec<&'a Process>,
    pub alloc: Global,
}

/// The value of a constant as a number of ticks or of an exception.
pub fn count(declarations: &Declarations<'_>, constant: &Constant) -> u32
    ensures { result ≡ count_value (plain (placed declarations.now))
        (plain_constant (placed_constant constant.now)) }
{
    let value = declarations.value(constant);
    if value < 0 { 0 } else { value as u32 }
}

/// Whether one of the constants is the number.
fn is_listed(declarations: &Declarations<'_>, number: u32, constants: &[Constant]) -> bool
    ensures { result ≡ lists_constant (plain (placed declarations.now)) number
        (map plain_constant (map placed_constant constants.now)) }
{
    for constant in constants {
        if count(declarations, constant) == number {
            return true;
        }
    }
    false
}

/// What a process does after an exception: its handler's statements, or the end alone.
#[derive(Drop)]
pub struct AfterException<'a> {
    pub calls: Vec<Call<'a>>,
    pub handling: bool,
}

/// Whether the handler begins: it lists the number, and does not run yet.
fn begins(declarations: &Declarations<'_>, number: u32, handler: &Handler, handling: bool) -> bool
    ensures { result ≡ (lists_constant (plain (placed declarations.now)) number
        (map plain_constant (map placed_constant handler.now.numbers)) && not handling) }
{
    is_listed(declarations, number, handler.numbers.as_slice()) && !handling
}

/// What the process does after an exception of this number, where its handler runs already or not.
fn what_follows<'a>(
    text: &ProgramContext<'a>,
    process: &'a Process,
    number: u32,
    handling: bool,
) -> Result<AfterException<'a>, OutOfMemory>
    ensures { IfOk result (λ a. IsAfter (plain (placed text.now.declarations.now))
        (plain_process (placed_process process.now)) number handling (after_of a)) }
{
    match &process.handler {
        None => Ok(AfterException {
            calls: Vec::new(text.alloc),
            handling,
        }),
        Some(handler) => {
            if begins(text.declarations, number, handler, handling) {
                let calls = beginning(text.alloc, handler.body.as_slice())?;
                Ok(AfterException {
                    calls,
                    handling: true,
                })
            } else {
                Ok(AfterException {
                    calls: Vec::new(text.alloc),
                    handling,
                })
            }
        }
    }
}

/// What the process of this number does after an exception; `None` where there is no such process.
pub fn prepare<'a>(
    config: &Config<'a>,
    text: &ProgramContext<'a>,
    process: usize,
    number: u32,
) -> Result<Option<AfterException<'a>>, OutOfMemory>
    requires { IsText text.now }
    ensures { IfOk result (λ after. IsPrepared
        (plain (placed text.now.declarations.now)) process number (config_of config.now)
        (option_map after_of after)) }
{
    match text.processes.get(process) {
        None => Ok(None),
        Some(its) => match config.jobs.get(process) {
            None => Ok(None),
            Some(job) => {
                let after = what_follows(text, its, number, job.handling)?;
                Ok(Some(after))
            }
        },
    }
}

/// The process is at work with these calls, since its release.
fn set_after<'a>(jobs: &mut Vec<ProcessState<'a>>, process: usize, after: AfterException<'a>)
    ensures { jobs_of jobs.new.items ≡ changed (raised_job (after_of after.entry)) process
        (jobs_of jobs.old.items) }
{
    let AfterException { calls, handling } = after;
    if process < jobs.len() {
        let job = &mut jobs[process];
        let began = released(job.doing);
        job.doing = Activity::Active { released: began };
        job.calls = calls;
        job.handling = handling;
    }
}

/// The process leaves its monitor and its calls, and begins what it does after the exception.
pub fn raise<'a>(config: &mut Config<'a>, process: usize, after: Option<AfterException<'a>>)
    ensures { config_of config.new ≡ after_put (option_map after_of after.entry) process
        (left (config_of config.old) process) }
{
    config.leave(process);
    if let Some(after) = after {
        set_after(&mut config.jobs, process, after);
    }
}
