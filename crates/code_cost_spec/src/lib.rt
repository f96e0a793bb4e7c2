//! Cost, height and length of a program, told of its tree.
//!
//! `specs/Costs.antt` has the ticks of execution, ticks of suspension and waits of each form,
//! `specs/Heights.antt` words of stack, `specs/Lengths.antt` numbers of instructions, and
//! `specs/Levels.antt` all of a whole program, a routine's after those that it calls. The law
//! `example` shows them of an example. Nothing here can run.
#![tactic(auto)]

pub mod example;
