//! What is stored to: a variable or an element.

ghost use Rattle.std.specs.Prelude.{◌≡◌, OnOk, Some};
ghost use Rattle.codegen_spec.specs.Told.{inside};
ghost use Rattle.codegen_spec.specs.Made.{put_part, put_whole, store_part, store_whole};
ghost use Rattle.codegen.specs.Of.{index_of, put_of, store_of};

use crate::code_builder::CodeBuilder;
use crate::errors::tri;
use codegen_spec::{Area, Lookup, Loop, VarLocation, VarShape};
use machine_isa::Instr;
use out_of_memory::OutOfMemory;
use syntax_tree::Ref;

impl CodeBuilder {
    /// The store in a variable.
    fn store_whole(&mut self, spot: &VarLocation) -> Result<(), OutOfMemory>
        ensures { OnOk result (self.new ≡ store_whole (Some spot.now) self.old) }
    {
        let word = spot.word;
        match spot.area {
            Area::Frame => self.push(Instr::StoreLocal { word }),
            Area::Process => self.push(Instr::StoreOwn { word }),
            Area::Monitor => self.push(Instr::StoreMon { word }),
        }
    }

    /// The store in an element, whose index is below the value.
    fn store_part(&mut self, spot: &VarLocation) -> Result<(), OutOfMemory>
        ensures { OnOk result (self.new ≡ store_part (Some spot.now) self.old) }
    {
        let word = spot.word;
        match spot.shape {
            VarShape::Single => Ok(()),
            VarShape::Array { low, len } => match spot.area {
                Area::Frame => self.push(Instr::StoreLocalAt { word, low, len }),
                Area::Process => self.push(Instr::StoreOwnAt { word, low, len }),
                Area::Monitor => self.push(Instr::StoreMonAt { word, low, len }),
            },
        }
    }

    /// The check of the range, if any, and the store in a variable.
    fn put_whole(&mut self, spot: &VarLocation) -> Result<(), OutOfMemory>
        ensures { OnOk result (self.new ≡ put_whole (Some spot.now) self.old) }
    {
        tri!(self.range(&spot.range));
        self.store_whole(spot)
    }

    /// The check of the range, if any, and the store in an element.
    fn put_part(&mut self, spot: &VarLocation) -> Result<(), OutOfMemory>
        ensures { OnOk result (self.new ≡ put_part (Some spot.now) self.old) }
    {
        tri!(self.range(&spot.range));
        self.store_part(spot)
    }

    /// The index of what is stored to, if it is an element.
    pub fn index<L: Lookup>(
        &mut self,
        names: &L,
        loops: &[Loop],
        target: &Ref,
    ) -> Result<(), OutOfMemory>
        ensures { let g = L.program names.now in let c = inside loops.now (L.scope names.now) in
            OnOk result (self.new ≡ index_of g c target.now self.old) }
    {
        match &target.index {
            Some(index) => self.expr(names, loops, index),
            None => Ok(()),
        }
    }

    /// The store of the value on the stack, with the check of its range.
    pub fn put<L: Lookup>(
        &mut self,
        names: &L,
        loops: &[Loop],
        target: &Ref,
    ) -> Result<(), OutOfMemory>
        ensures { let g = L.program names.now in let c = inside loops.now (L.scope names.now) in
            OnOk result (self.new ≡ put_of g c target.now self.old) }
    {
        match names.variable(loops, &target.name) {
            None => Ok(()),
            Some(spot) => match &target.index {
                Some(_) => self.put_part(&spot),
                None => self.put_whole(&spot),
            },
        }
    }

    /// The store of the value on the stack, which has no range to keep to.
    pub fn store<L: Lookup>(
        &mut self,
        names: &L,
        loops: &[Loop],
        target: &Ref,
    ) -> Result<(), OutOfMemory>
        ensures { let g = L.program names.now in let c = inside loops.now (L.scope names.now) in
            OnOk result (self.new ≡ store_of g c target.now self.old) }
    {
        match names.variable(loops, &target.name) {
            None => Ok(()),
            Some(spot) => match &target.index {
                Some(_) => self.store_part(&spot),
                None => self.store_whole(&spot),
            },
        }
    }
}
