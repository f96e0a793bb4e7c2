//! Examples of code: the mine pump with an image of 103 instructions, and nested routines.
//!
//! Promised: the image is the code of the mine pump, and routines that stand before those that they
//! call have the greater numbers.
//!
//! The code of the mine pump, and the numbers of nested routines.

ghost use Rattle.std.specs.Prelude.{◌≡◌, length};
ghost use Rattle.code_spec.specs.Compiled.{IsCodeOf};
ghost use Rattle.examples_law.specs.Mine.{mine, mine_code, mine_image};
ghost use Rattle.examples_law.specs.Nested.{CalleesFirst};

/// The image, of 103 instructions, is the code of the mine pump.
pub fn the_mine_pump_is_its_code()
    ensures code { IsCodeOf mine mine_image }
    ensures size { length mine_code ≡ 103 }
{}

/// Routines that stand before those that they call have the greater numbers.
pub fn callees_come_first()
    ensures { CalleesFirst }
{}
