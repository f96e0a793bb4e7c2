//! Commands.

use crate::stop::Breakpoint;

/// A command, with the names of the files that its words give, and its overhead in ticks, 0 where
/// no word gives one.
#[derive(Clone, Copy)]
pub enum Command<'a> {
    /// Runs a program over a script, and stores its image.
    Go {
        program: &'a str,
        image: &'a str,
        script: &'a str,
        overhead: u16,
    },
    /// Reports on a program.
    Check {
        program: &'a str,
        overhead: u16,
    },
    /// Stores the image of a program, and reports on it.
    Compile {
        program: &'a str,
        image: &'a str,
        overhead: u16,
    },
    /// Reports on a program in JSON.
    Json {
        program: &'a str,
        overhead: u16,
    },
    /// Tells how many ticks each process of a program can spare.
    Slack {
        program: &'a str,
        overhead: u16,
    },
    /// Prints the canonical text of a program.
    Print {
        program: &'a str,
    },
    /// Runs a stored image over a script.
    Run {
        image: &'a str,
        script: &'a str,
    },
    /// Stores an image anew, in the present version of images.
    Migrate {
        image: &'a str,
        target: &'a str,
    },
    /// Stores the image that a text tells.
    Asm {
        text: &'a str,
        image: &'a str,
    },
    /// Stores the text of an image.
    Dis {
        image: &'a str,
        text: &'a str,
    },
    /// Tells the state of the machine where the run of a stored image over a script stops.
    Watch {
        image: &'a str,
        script: &'a str,
        stop: Breakpoint,
    },
    /// Judges whether a log is that of a run of a program over a script.
    Replay {
        program: &'a str,
        script: &'a str,
        log: &'a str,
    },
    /// Runs a program without waits under earliest deadline first.
    Edf {
        program: &'a str,
        script: &'a str,
    },
    /// Takes the bounds of a program apart.
    Why {
        program: &'a str,
        overhead: u16,
    },
    /// Tells the greatest overhead, costs and suspensions with which a program is in time.
    Fit {
        program: &'a str,
        overhead: u16,
    },
    /// Draws the run of a stored image over a script, from its first tick on, below the end.
    Chart {
        image: &'a str,
        script: &'a str,
        first: u64,
        end: u64,
    },
    /// Stores the program of a task table.
    Table {
        tasks: &'a str,
        program: &'a str,
    },
}
