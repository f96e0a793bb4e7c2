//! The values of constants.

ghost use Rattle.std.specs.Prelude.{◌≡◌, IfOk, ◌≤ℤ◌, pos, negsuc};
ghost use Rattle.syntax_tree.specs.Placed.{placed, plain, placed_constant, plain_constant};
ghost use Rattle.source_semantics.specs.Names.{constants, constant_value, value_among};

use out_of_memory::OutOfMemory;
use static_declarations::values;
use std::alloc::Global;
use std::marker::Model;
use syntax_tree::{Constant, Name, Program};

/// The constants of a program with their values.
#[derive(Drop)]
pub struct ConstantValues<'a> {
    program: &'a Program,
    kept: values::Values<'a>,
}

impl<'a> Model for ConstantValues<'a> {
    ghost use Rattle.std.specs.Coded.{codes};
    ghost use Rattle.syntax_tree.specs.declared.decl.Program.{Program as Tree};
    ghost use Rattle.syntax_tree.specs.contracts.decl.Program as tree;
    ghost use Rattle.code_layout.specs.Values.{IsKept};

    ghost Value = { Tree };

    ghost coded = { Prim.hlevel (codes, tree.the_row.coded) };

    ghost view = { λ v. v.program.now };

    ghost invariant = { λ v. IsKept v.program.now v.kept.entries };
}

impl<'a> ConstantValues<'a> {
    /// Goes once through the declarations of the program.
    pub fn new(alloc: Global, program: &'a Program) -> Result<ConstantValues<'a>, OutOfMemory>
        ensures { IfOk result (λ v. v ≡ program.now) }
    {
        let kept = values::values(alloc, program.decls.as_slice())?;
        Ok(ConstantValues { program, kept })
    }

    /// The value of a constant, from -4,294,967,295 to 4,294,967,295.
    pub fn value(&self, constant: &Constant) -> i64
        ensures exact { result ≡ constant_value (plain (placed self.now))
            (plain_constant (placed_constant constant.now)) }
        ensures within { (negsuc 4294967294 ≤ℤ result) × (result ≤ℤ pos 4294967295) }
    {
        values::value_of(&self.kept, constant).get()
    }

    /// The value of the constant of that name, 0 where there is none.
    pub fn constant(&self, name: &Name) -> i64
        ensures exact { result ≡ value_among (constants (plain (placed self.now))) name.now }
        ensures within { (negsuc 4294967294 ≤ℤ result) × (result ≤ℤ pos 4294967295) }
    {
        values::named(&self.kept, name.as_bytes()).get()
    }
}
