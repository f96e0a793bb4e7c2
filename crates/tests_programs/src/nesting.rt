//! Deep and long programs, replayed.

use std::alloc::Global;
use std::fmt::Write;
use std::test::Fail;
use tests_calls::{Expected, NO_FAILURES, call_beside};

/// Puts the text at the end so many times.
fn push_times(text: &mut String, part: &str, times: u64) -> Result<(), Fail> {
    for _ in 0..times {
        text.push_str(part)?;
    }
    Ok(())
}

/// Puts a procedure that calls nothing, with 60 parentheses around one number.
fn push_flat(text: &mut String, number: u64) -> Result<(), Fail> {
    write!(text, " procedure f{number}() var x : int begin x := ")?;
    push_times(text, "(", 60)?;
    text.push_str("1")?;
    push_times(text, ")", 60)?;
    Ok(write!(text, " end f{number}")?)
}

/// Puts a procedure that calls the one before it within 30 nested statements.
fn push_link(text: &mut String, number: u64) -> Result<(), Fail> {
    write!(text, " procedure f{number}() begin")?;
    push_times(text, " if true then", 30)?;
    write!(text, " f{}()", number.saturating_sub(1))?;
    push_times(text, " end if", 30)?;
    Ok(write!(text, " end f{number}")?)
}

/// Puts a function that calls nothing, with 60 parentheses around one number.
fn push_flat_function(text: &mut String, number: u64) -> Result<(), Fail> {
    write!(text, " function f{number}() returns int begin return ")?;
    push_times(text, "(", 60)?;
    text.push_str("1")?;
    push_times(text, ")", 60)?;
    Ok(write!(text, " end f{number}")?)
}

/// Puts a function that answers what the one before it does, called within 60 parentheses.
fn push_function_link(text: &mut String, number: u64) -> Result<(), Fail> {
    write!(text, " function f{number}() returns int begin return ")?;
    push_times(text, "(", 60)?;
    write!(text, "f{}()", number.saturating_sub(1))?;
    push_times(text, ")", 60)?;
    Ok(write!(text, " end f{number}")?)
}

fn push_flat_functions(text: &mut String) -> Result<(), Fail> {
    for number in 0..300 {
        push_flat_function(text, number)?;
    }
    Ok(text.push_str(" process p : periodic frame 10000 var x : int begin x := f0() end p end d")?)
}

fn push_function_links(text: &mut String) -> Result<(), Fail> {
    for number in 1..512 {
        push_function_link(text, number)?;
    }
    Ok(text.push_str(
        " process p : periodic frame 10000 var x : int begin x := f511() end p end d",
    )?)
}

fn push_flats(text: &mut String) -> Result<(), Fail> {
    for number in 0..300 {
        push_flat(text, number)?;
    }
    Ok(text.push_str(" process p : periodic frame 10000 begin f0() end p end d")?)
}

fn push_links(text: &mut String) -> Result<(), Fail> {
    for number in 1..512 {
        push_link(text, number)?;
    }
    Ok(text.push_str(" process p : periodic frame 10000 begin f511() end p end d")?)
}

/// A program of 300 procedures that call nothing, with 60 parentheses around one number each.
fn flat_program(alloc: Global) -> Result<String, Fail> {
    let mut text = String::from_str(alloc, "program d")?;
    push_flats(&mut text)?;
    Ok(text)
}

/// A program of 512 procedures, each of which calls the one before it within 30 nested statements.
fn chain_program(alloc: Global) -> Result<String, Fail> {
    let mut text = String::from_str(alloc, "program d procedure f0() begin end f0")?;
    push_links(&mut text)?;
    Ok(text)
}

/// A program of 300 functions that call nothing, with 60 parentheses around one number each.
fn flat_functions_program(alloc: Global) -> Result<String, Fail> {
    let mut text = String::from_str(alloc, "program d")?;
    push_flat_functions(&mut text)?;
    Ok(text)
}

/// A program of 512 functions, each of which calls the one before it within 60 parentheses.
fn function_chain_program(alloc: Global) -> Result<String, Fail> {
    let first = "program d function f0() returns int begin return 1 end f0";
    let mut text = String::from_str(alloc, first)?;
    push_function_links(&mut text)?;
    Ok(text)
}

/// An activation of the program that ends at tick 9999 is that of a run.
fn is_run(alloc: Global, program: &str) -> Result<(), Fail> {
    let line = "replay P S L";
    let log = b"0 p release\n9999 p end\n";
    let want = Expected {
        status: 0,
        put: "run 2\n",
        puts: None,
    };
    call_beside(alloc, line, program, "end 10000\n", "L", log, NO_FAILURES)?.answered(
        alloc, line, want,
    )
}

#[test]
fn flat_programs_are_judged(rt: HostRuntime) -> Result<(), Fail> {
    let program = flat_program(rt.alloc())?;
    is_run(rt.alloc(), program.as_str())
}

#[test]
fn chains_of_nested_calls_are_judged(rt: HostRuntime) -> Result<(), Fail> {
    let program = chain_program(rt.alloc())?;
    is_run(rt.alloc(), program.as_str())
}

#[test]
fn flat_functions_are_judged(rt: HostRuntime) -> Result<(), Fail> {
    let program = flat_functions_program(rt.alloc())?;
    is_run(rt.alloc(), program.as_str())
}

#[test]
fn chains_of_functions_are_judged(rt: HostRuntime) -> Result<(), Fail> {
    let program = function_chain_program(rt.alloc())?;
    is_run(rt.alloc(), program.as_str())
}
