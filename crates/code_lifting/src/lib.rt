//! Law: whole runs of an image are runs of the program, from each process.
//!
//! The family Compiler correctness: laws, with nothing to run. What the generator makes is the code
//! of the program (`codegen_law`); such code does what the meaning says, one process and whole runs
//! (`code_lifting`, `code_correct`); what is built is valid (`built_valid_law`), with the measures,
//! operands and ranks that are defined; all joined in `compiler_correct`.
//!
//! `specs/Related.antt` relates the states of machine and source, `specs/Compiled.antt` has the
//! law: where the code of each process does what its text says, the events of a run are a source
//! run. `specs/Image.antt` has the premises on the image. Nothing here can run.
#![tactic(auto)]

pub mod runs_of_source;
pub mod runs_refine;
