//! What the generator asks about names.

ghost use Rattle.std.specs.Prelude.{◌≡◌, ◌<◌, ◌^◌, Some, length, map, option_map, pos, slice_get};
ghost use Rattle.std.specs.Option.{option_copied};
ghost use Rattle.syntax_tree.specs.Plain as plain;
ghost use Rattle.syntax_tree.specs.Placed.{placed_constant, placed_process, placed_routine, plain_constant, plain_process, plain_routine};
ghost use Rattle.source_semantics.specs.Names.{constant_value, device_number, processes as processes_of};
ghost use Rattle.code_spec.specs.Layout.{Scope, routine_vars_words, spot_of};
ghost use Rattle.code_spec.specs.Numbering.{Text, entry_in, numbered, routine_in};
ghost use Rattle.code_spec.specs.Code.{constant_named};
ghost use Rattle.code_spec.specs.Compiled.{process_scope, routine_scope};
ghost use Rattle.code_spec.specs.Emits.{condition_of};
ghost use Rattle.codegen_spec.specs.Told.{fit, inside, told_callee, told_owner, told_spot, value_told};

use crate::var_location::{Callee, Loop, Owner, VarLocation};
use syntax_tree::{Constant, Name, Process, Routine};

/// The names of a program, as one text of it sees them: that of a routine, or of a process, its
/// body and its handler. The loops around a statement come from the generator, the outermost first.
pub trait Lookup {
    ghost program: { Self → plain.Program };

    ghost scope: { Self → Scope };

    /// The variable that a name means; `None` where it means none.
    fn variable(&self, loops: &[Loop], name: &Name) -> Option<VarLocation>
        ensures { result ≡ told_spot (spot_of (program self.now)
            (inside loops.now (scope self.now)) name.now) };

    /// What a name is worth that means a constant.
    fn constant(&self, name: &Name) -> i32
        ensures { result ≡ fit (value_told (constant_named (program self.now) name.now)) };

    /// What a constant is worth.
    fn value(&self, constant: &Constant) -> i32
        ensures { result ≡ fit (constant_value (program self.now)
            (plain_constant (placed_constant constant.now))) };

    /// The number of a device.
    fn device(&self, name: &Name) -> i32
        ensures { result ≡ fit (pos (device_number (program self.now) name.now)) };

    /// Whose text it is.
    fn owner(&self) -> Owner
        ensures { result ≡ told_owner (scope self.now).owner };

    /// The number of a condition, which is one of the monitor whose text it is.
    fn condition(&self, name: &Name) -> i32
        ensures { result ≡ fit (pos (condition_of (program self.now)
            (scope self.now).owner name.now)) };

    /// The routine that a call names; `None` where it names none.
    fn routine(&self, name: &Name) -> Option<&Callee>
        ensures { option_copied result ≡ told_callee (program self.now)
            (routine_in (program self.now) (scope self.now).owner name.now) };

    /// The entry that a call names, of the monitor that it names; `None` where it names none.
    fn entry(&self, monitor: &Name, name: &Name) -> Option<&Callee>
        ensures { option_copied result ≡ told_callee (program self.now)
            (entry_in (program self.now) monitor.now name.now) };
}

/// The texts of a program, each with the names that it sees: its routines and entries by their
/// numbers, and its processes in the order of the text.
pub trait Lookups {
    type Names: Lookup;

    ghost program: { Self → plain.Program };

    /// How many routines and entries there are.
    fn routines(&self) -> usize
        ensures { result ≡ length (numbered (program self.now)) };

    fn routine(&self, number: usize) -> &Routine
        requires { number < length (numbered (program self.now)) }
        ensures { (t : Text) → slice_get (numbered (program self.now)) number ≡ Some t →
            plain_routine (placed_routine result.now) ≡ t.routine };

    /// How many words of a routine's frame its parameters and variables take, however many.
    fn words(&self, number: usize) -> u128
        requires { number < length (numbered (program self.now)) }
        ensures exact { (t : Text) → slice_get (numbered (program self.now)) number ≡ Some t → result ≡
            routine_vars_words (program self.now) t.routine }
        ensures small { result < 2 ^ 100 };

    /// The names that a routine sees.
    fn routine_names(&self, number: usize) -> &Self::Names
        requires { number < length (numbered (program self.now)) }
        ensures program { Self.Names.program result.now ≡ program self.now }
        ensures scope { (t : Text) → slice_get (numbered (program self.now)) number ≡ Some t →
            Self.Names.scope result.now ≡ routine_scope (program self.now) t };

    /// How many processes there are.
    fn processes(&self) -> usize
        ensures { result ≡ length (processes_of (program self.now)) };

    fn process(&self, number: usize) -> &Process
        requires { number < length (processes_of (program self.now)) }
        ensures { (p : plain.Process) → slice_get (processes_of (program self.now)) number ≡
            Some p → plain_process (placed_process result.now) ≡ p };

    /// The names that a process sees, in its body and its handler.
    fn process_names(&self, number: usize) -> &Self::Names
        requires { number < length (processes_of (program self.now)) }
        ensures program { Self.Names.program result.now ≡ program self.now }
        ensures scope { (p : plain.Process) → slice_get (processes_of (program self.now)) number ≡
            Some p → Self.Names.scope result.now ≡ process_scope (program self.now) number p };
}
