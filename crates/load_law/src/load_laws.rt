//! Laws of the generated load: its program keeps to all rules and is timely, and its texts are
//! those of a timely program and of a script for its names.
//!
//! `specs/` of `load_law` says what is claimed. The laws join those of this room and of
//! `load_text_law`: names, types, limits, stacks, costs and lengths of the load, and that light
//! images respond.
//! Nothing is to run.
//!
//! The laws.

ghost use Rattle.load_law.specs.Rules.{KeepsRules, KeepsSizes};
ghost use Rattle.load_law.specs.Texts.{HasInstructions, HasScript, IsFaultless, IsNeverLate};
ghost use Rattle.load_law.specs.Time.{KeepsTime};

use crate::{light_images_respond, load_is_light, load_names, load_stacks, load_types};
use built_image_law::premises_of_laws::checked_programs_are_ready;
use codegen_law::code_of_program::made_programs_have_their_length;
use front_end::program_or_fault;
use load_text_law::{load_limits, load_numbers, load_reach, load_script, load_size, load_text};

/// A tree that is read, and is that of the load with 1 to 64 processes apart from places, keeps to
/// the rules for names and to all static rules; with 64 at most, a tree of the load keeps to those
/// of size.
pub fn load_keeps_rules()
    ensures rules { KeepsRules }
    ensures sizes { KeepsSizes }
{
    load_names();
    load_types();
    load_limits();
    load_reach();
    load_numbers();
    load_size();
    load_stacks();
}

/// Each process of the load responds within the shortest frame that there may be.
pub fn load_is_in_time()
    ensures { KeepsTime }
{
    load_is_light();
    light_images_respond();
}

/// With 1 to 64 processes the text of the load's program has no fault, and its program is never
/// late; of each image of it, the text of the script is one for its names, with the lines that were
/// drawn, and it has 11 instructions, 24 for each process, and one for each second one.
pub fn load_texts()
    ensures faultless { IsFaultless }
    ensures timely { IsNeverLate }
    ensures script { HasScript }
    ensures instructions { HasInstructions }
{
    load_keeps_rules();
    load_is_in_time();
    load_text();
    load_size();
    load_script();
    program_or_fault();
    checked_programs_are_ready();
    made_programs_have_their_length();
}
