//! The 48 instructions: ticks, operands, bytes.
//!
//! The family Meanings: which runs are runs. `source_semantics` says it of a program, over its
//! tree; `machine_semantics` of an image, tick by tick, over the instructions of this room. The
//! rooms `.._law` show worked runs and that the source meaning is deterministic; `machine_safety`
//! that an image that fits its trees is never stuck.
//!
//! `specs/Ticks.antt` has the ticks of each instruction, a line for each row of the table,
//! `specs/Operands.antt` which operands it has, `specs/Bytes.antt` its 13 bytes. `ticks`,
//! `write_instr` and `read_instr` give exactly these; no two instructions have the same bytes.
#![tactic(auto)]

mod bytes;
mod instr;
mod isa;
mod timing;

pub use bytes::{arity, instr_of, read_instr, write_instr};
pub use instr::Instr;
pub use isa::instructions_are_distinct;
pub use timing::ticks;
