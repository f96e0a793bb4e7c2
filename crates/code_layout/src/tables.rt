//! What is the same in all texts of a program.

ghost use Rattle.std.specs.Prelude.{◌≡◌, IfOk, OnOk, List, ◌∷◌, ◌++◌, filter_map, map, pos};
ghost use Rattle.syntax_tree.specs.Plain.{Declaration as SpecDecl};
ghost use Rattle.syntax_tree.specs.Placed.{placed, placed_constant, placed_decl, plain, plain_constant, plain_decl};
ghost use Rattle.source_semantics.specs.Names.{constant_value, device_in, device_number, place_of};
ghost use Rattle.code_spec.specs.Code.{constant_named};
ghost use Rattle.code_names.specs.First.{names_of};
ghost use Rattle.codegen_spec.specs.Told.{fit, value_told};

use crate::{ConstantValues, fit_value, fit_word};
use code_names::{NameList, Numbering};
use out_of_memory::OutOfMemory;
use std::alloc::Global;
use std::marker::Model;
use syntax_tree::{Constant, Declaration, Name, Program};

/// The constants, devices, routines, monitors and processes of a program.
pub struct Tables<'a> {
    numbering: Numbering<'a>,
    values: ConstantValues<'a>,
    devices: NameList<'a>,
}

impl<'a> Model for Tables<'a> {
    ghost use Rattle.std.specs.Coded.{codes};
    ghost use Rattle.syntax_tree.specs.declared.decl.Program.{Program as Tree};
    ghost use Rattle.syntax_tree.specs.contracts.decl.Program as tree;
    ghost use Rattle.code_layout.specs.LookupTables.{AreTables};

    ghost Value = { Tree };

    ghost coded = { Prim.hlevel (codes, tree.the_row.coded) };

    ghost view = { λ t. t.values };

    ghost invariant = { λ t. AreTables t.values t.numbering t.devices };
}

/// By hand, so that whoever lets tables go has one call to prove, and not its parts.
impl Drop for Tables<'_> {
    fn drop(self) {
        let Tables {
            numbering,
            values,
            devices,
        } = self;
        drop(numbering);
        drop(values);
        drop(devices);
    }
}

/// Lists the device that a declaration declares, if it does.
fn list_device<'a>(names: &mut Vec<&'a [u8]>, decl: &'a Declaration) -> Result<(), OutOfMemory>
    ensures { OnOk result ((rest : List SpecDecl) → names_of names.new.items ++
        filter_map device_in rest ≡ names_of names.old.items ++
        filter_map device_in (plain_decl (placed_decl decl.now) ∷ rest)) }
{
    if let Declaration::Device { name, .. } = decl {
        names.push(name.as_bytes())?;
    }
    Ok(())
}

/// The names of the devices.
fn device_names<'a>(alloc: Global, decls: &'a [Declaration]) -> Result<NameList<'a>, OutOfMemory>
    ensures { IfOk result (λ names. names ≡ filter_map device_in
        (map plain_decl (map placed_decl decls.now))) }
{
    let mut names = Vec::new(alloc);
    for decl in decls {
        list_device(&mut names, decl)?;
    }
    let list = NameList::new(alloc, names)?;
    Ok(list)
}

/// The number of a name in a list; how many names there are where it is not one of them.
pub fn number(list: &NameList<'_>, name: &Name) -> usize
    ensures { result ≡ place_of name.now list.now }
{
    match list.index(name) {
        Some(index) => index,
        None => list.len(),
    }
}

impl<'a> Tables<'a> {
    /// Goes once through the text of the program.
    pub fn new(alloc: Global, program: &'a Program) -> Result<Tables<'a>, OutOfMemory>
        ensures { IfOk result (λ t. t ≡ program.now) }
    {
        let devices = device_names(alloc, program.decls.as_slice())?;
        let values = ConstantValues::new(alloc, program)?;
        let numbering = Numbering::new(alloc, program)?;
        Ok(Tables {
            numbering,
            values,
            devices,
        })
    }

    /// The routines by number.
    pub fn numbering(&self) -> &Numbering<'a>
        ensures { result.now ≡ self.now }
    {
        &self.numbering
    }

    /// The values of the constants.
    pub fn values(&self) -> &ConstantValues<'a>
        ensures { result.now ≡ self.now }
    {
        &self.values
    }

    /// What a constant is worth.
    pub fn value(&self, constant: &Constant) -> i32
        ensures { result ≡ fit (constant_value (plain (placed self.now))
            (plain_constant (placed_constant constant.now))) }
    {
        fit_value(self.values.value(constant))
    }

    /// What a name is worth that means a constant.
    pub fn constant(&self, name: &Name) -> i32
        ensures { result ≡ fit (value_told (constant_named (plain (placed self.now)) name.now)) }
    {
        fit_value(self.values.constant(name))
    }

    /// The number of a device.
    pub fn device(&self, name: &Name) -> i32
        ensures { result ≡ fit (pos (device_number (plain (placed self.now)) name.now)) }
    {
        fit_word(number(&self.devices, name) as u128)
    }
}
