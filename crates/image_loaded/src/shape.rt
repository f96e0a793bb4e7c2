//! Images that are valid but for their bounds.

ghost use Rattle.std.specs.Prelude.{◌≡◌, ◌<◌, None, Some, IfSome, length, slice_get};
ghost use Rattle.image.specs.Bytes.{Second, bytes_of};
ghost use Rattle.image.specs.InRange.{IsInRange};
ghost use Rattle.image.specs.Raw.{image_of, monitor_of, named_of};
ghost use Rattle.image_bytes.specs.Standing.{process_in, routine_in};
ghost use Rattle.image_loaded.specs.Answers.{LoadsShape, Shapes};
ghost use Rattle.image_loaded.specs.Shape.{IsShape};
ghost use Rattle.loader.specs.Verified.{HasRanges, fault_before_bounds as first_before_bounds};

use crate::fault::{FileFault, ValidFault};
use crate::reading::{kept, read, second};
use image::{ImageNames, RawImage, RawMonitor};
use image_bytes::{ImageBytes, ProcessRef, RoutineRef};
use loader::fault_before_bounds;
use machine_isa::Instr;
use std::alloc::Global;
use std::marker::Model;
use validity_parts::part_fault;

/// An image that is valid but for its bounds, kept as its bytes in version 2.
#[derive(Drop)]
pub struct Shape {
    image: ImageBytes,
}

impl Model for Shape {
    ghost use Rattle.image.specs.Named.{NamedImage};
    ghost use Rattle.image_format.specs.TreeCode.{coded_segs};
    ghost use Rattle.image_loaded.specs.Shape.{IsShape};
    ghost use Rattle.std.specs.Coded.{codes};

    ghost Value = { NamedImage };

    ghost coded = { Prim.hlevel (codes, coded_segs) };

    ghost view = { λ s. s.image };

    ghost invariant = { λ s. IsShape s.image };
}

/// The fault of numbers of which a part before bounds has one.
fn fault_of(alloc: Global, raw: RawImage) -> ValidFault
    requires ranges { HasRanges raw }
    requires before { first_before_bounds (image_of raw) ≡ None → ⊥ }
    ensures { Shapes raw (Err result) }
{
    match part_fault(alloc, &raw) {
        Ok(Some(fault)) => ValidFault::Invalid { raw, fault },
        Ok(None) => unreachable!(),
        Err(error) => ValidFault::Memory(error),
    }
}

/// The shape of numbers of which no part before bounds has a fault. Its bytes are taken where they
/// are there.
fn shape_of(alloc: Global, bytes: Option<Vec<u8>>, raw: RawImage) -> Result<Shape, ValidFault>
    requires ranges { HasRanges raw }
    requires written { IsInRange (named_of raw) }
    requires bytes { IfSome bytes (λ own. own.items ≡ bytes_of Second (named_of raw)) }
    ensures { Shapes raw result }
{
    match fault_before_bounds(alloc, &raw)? {
        None => Ok(Shape {
            image: kept(alloc, bytes, raw)?,
        }),
        Some(_) => Err(fault_of(alloc, raw)),
    }
}

impl Shape {
    /// The shape of the image that the bytes of a file are, in either version.
    ///
    /// It keeps the bytes where they are in version 2, and else those that the image has in version
    /// 2; while it tests, it takes some few times their memory.
    ///
    /// # Errors
    ///
    /// `Image` exactly where the bytes are no image, with their first fault; `Invalid` exactly
    /// where a part of validity other than its bounds fails, with the first test that fails in the
    /// order of the tests 6, 1, 7, 2, 3, 4. `Memory` where there is not enough memory.
    pub fn load(alloc: Global, bytes: Vec<u8>) -> Result<Shape, FileFault>
        ensures { LoadsShape bytes.items result }
    {
        let raw = read(alloc, bytes.as_slice())?;
        let own = second(bytes, &raw);
        Ok(shape_of(alloc, own, raw)?)
    }

    /// The image as it stands in its bytes.
    pub fn image(&self) -> &ImageBytes
        ensures { result.now ≡ self.now }
    {
        &self.image
    }

    /// The image as it stands in its bytes, which are not copied.
    pub fn into_image(self) -> ImageBytes
        ensures { result ≡ self }
    {
        self.image
    }

    /// The bytes of its file, in version 2.
    pub fn bytes(&self) -> &[u8]
        ensures { result.now ≡ bytes_of Second self.now }
    {
        self.image.bytes()
    }

    /// The names of its parts.
    pub fn names(&self) -> &ImageNames
        ensures { result.now ≡ self.now.names }
    {
        self.image.names()
    }

    /// No part of its validity before bounds has a fault, and its numbers are in their ranges. The
    /// call does nothing.
    pub fn has_no_fault_before_bounds(&self)
        ensures { IsShape self.now }
    {
        let _image = &self.image;
    }

    /// The ticks of one dispatch.
    pub fn overhead(&self) -> u16
        ensures { result ≡ self.now.image.over }
    {
        self.image.overhead()
    }

    /// The instruction at an address of its code.
    pub fn instr(&self, at: u32) -> Instr
        requires { at < length self.now.image.code }
        ensures { slice_get self.now.image.code at ≡ Some result }
    {
        self.image.instr(at)
    }

    /// A process, by its number from 0: its numbers, and its trees as they stand in the bytes.
    pub fn process(&self, process: u16) -> ProcessRef<'_>
        requires { process < length self.now.image.processes }
        ensures { slice_get self.now.image.processes process ≡ Some (process_in result) }
    {
        self.image.process(process)
    }

    /// A routine, by its number from 0: its numbers, and its tree as it stands in the bytes.
    pub fn routine(&self, routine: u16) -> RoutineRef<'_>
        requires { routine < length self.now.image.routines }
        ensures { slice_get self.now.image.routines routine ≡ Some (routine_in result) }
    {
        self.image.routine(routine)
    }

    /// A monitor, by its number from 0.
    pub fn monitor(&self, monitor: u16) -> RawMonitor
        requires { monitor < length self.now.image.monitors }
        ensures { slice_get self.now.image.monitors monitor ≡ Some (monitor_of result) }
    {
        self.image.monitor(monitor)
    }

    /// How many processes there are.
    pub fn processes(&self) -> u16
        ensures { result ≡ length self.now.image.processes }
    {
        self.image.processes()
    }

    /// How many routines there are.
    pub fn routines(&self) -> u16
        ensures { result ≡ length self.now.image.routines }
    {
        self.image.routines()
    }

    /// How many monitors there are.
    pub fn monitors(&self) -> u16
        ensures { result ≡ length self.now.image.monitors }
    {
        self.image.monitors()
    }

    /// How many instructions there are.
    pub fn code_len(&self) -> u32
        ensures { result ≡ length self.now.image.code }
    {
        self.image.code_len()
    }
}
