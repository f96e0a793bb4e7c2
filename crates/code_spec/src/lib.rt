//! Which code a program has, as a relation of its tree and an image; when code stands for calls.
//!
//! The family Compiler: from a checked program to its image. `code_spec` and `code_cost_spec` say
//! what code and cost are right, `codegen_spec` what the generator makes; `code_..` and `codegen..`
//! measure and generate, `compile_image` and `compile_schedule` put the image together, `compile`
//! joins them.
//!
//! `specs/Layout.antt` says where variables lie, `specs/Numbering.antt` which numbers routines
//! have, `specs/Code.antt` and `specs/Emits.antt` the code of expressions and of statements,
//! `specs/Segments.antt` the trees, and `specs/Compiled.antt` when an image is the code of a
//! program (`IsCodeOf`).
//!
//! `specs/Boundary.antt` and `specs/Follows.antt` stand between the law of one process's code and
//! the law of whole runs: that its code is right, by a relation of the proof, and without one.
//!
//! When code stands for the calls in progress of a process: `specs/Memory.antt` says when words
//! hold the variables of a text, `specs/Proper.antt` what the static rules give,
//! `specs/Stands.antt` where frames stand for calls, `specs/Steps.antt` and `specs/Comes.antt` what
//! code comes to, whatever others write meanwhile. Nothing here can run.
#![tactic(auto)]
