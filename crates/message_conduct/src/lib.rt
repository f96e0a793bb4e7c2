//! The sentence for what stands where it may not, uses a device the wrong way, or reaches itself.
//!
//! The family Messages (`message_text`): where the rule for what may stand where fails, or that for
//! the direction of devices, the sentence names what is wrong: the call, the word, the device.
//!
//! `specs/Faults.antt` has the first that is wrong with a statement or a result, part by part, and
//! `specs/Sentences.antt` says it; `specs/Conduct.antt` says it of the first statement or result of
//! a program that fails the rule at a place. `conduct_sentence` makes exactly that sentence, or
//! tells that there is none. `finds_each`: something is found wrong with a part exactly where the
//! rule fails of it; `tells_each`: there is a sentence exactly where one of the two rules fails.
//!
//! Where a rule for calls fails, the sentence names the routine and the first of its calls that
//! comes back, or the process whose handler reaches a wait. `specs/Told.antt` says it of a place of
//! a program, over what `static_calls` says is reached. `call_sentence` makes exactly that sentence,
//! or tells that there is none. `tells_calls`: there is a sentence exactly where a routine reaches
//! itself, and wherever a handler reaches a wait.
#![tactic(auto)]

mod call_laws;
mod call_told;
mod calls;
mod expr;
mod laws;
mod search;
mod sentences;
mod stmt;
mod stray;
mod told;

pub use call_laws::tells_calls;
pub use call_told::call_sentence;
pub use laws::{finds_each, tells_each};
pub use sentences::routine_name;
pub use told::conduct_sentence;
