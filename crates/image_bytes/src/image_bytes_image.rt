//! Images as bytes.

ghost use Rattle.std.specs.Prelude.{◌≡◌, ◌<◌, Some, IfOk, length, map, slice_get};
ghost use Rattle.image.specs.Bytes.{Second, bytes_of};
ghost use Rattle.image.specs.InRange.{IsInRange};
ghost use Rattle.image.specs.Raw.{image_of, monitor_of, named_of};
ghost use Rattle.image_bytes.specs.Standing.{process_in, routine_in};
ghost use Rattle.valid_image.specs.Valid.{HasLimits};

use crate::reading::{bytes_from, instr_bytes_at, monitor_at};
use crate::{PartOffsets, ProcessRef, RoutineRef, places_of, process_at, routine_at};
use image::{ImageNames, RawImage, RawMonitor, write_image};
use machine_isa::{Instr, read_instr};
use out_of_memory::OutOfMemory;
use std::alloc::Global;
use std::marker::Model;
use syntax_tree::Name;

/// An image, kept as its bytes in version 2, with its names and the places where its parts begin.
#[derive(Drop)]
pub struct ImageBytes {
    bytes: Vec<u8>,
    overhead: u16,
    program: Name,
    names: ImageNames,
    places: PartOffsets,
}

impl Model for ImageBytes {
    ghost use Rattle.image.specs.Named.{NamedImage};
    ghost use Rattle.image_bytes.specs.Kept.{AreKept, image_at};
    ghost use Rattle.image_format.specs.TreeCode.{coded_segs};
    ghost use Rattle.std.specs.Coded.{codes};

    ghost Value = { NamedImage };

    ghost coded = { Prim.hlevel (codes, coded_segs) };

    ghost view = { λ i. image_at i.bytes.items i.overhead i.program i.names i.places };

    ghost invariant = { λ i. AreKept i.bytes.items i.places
        (image_at i.bytes.items i.overhead i.program i.names i.places) };
}

impl ImageBytes {
    /// The image of these numbers, which have to be in the ranges of their fields, as those of
    /// every image that `read_image` gives. An error says that memory is short.
    pub fn of(alloc: Global, raw: RawImage) -> Result<ImageBytes, OutOfMemory>
        requires limits { HasLimits (image_of raw) }
        requires written { IsInRange (named_of raw) }
        ensures { IfOk result (λ image. image ≡ named_of raw) }
    {
        let bytes = write_image(alloc, &raw)?;
        ImageBytes::keeping(alloc, bytes, raw)
    }

    /// The image of these numbers, likewise, where its bytes are there already. It keeps them.
    pub fn keeping(alloc: Global, bytes: Vec<u8>, raw: RawImage) -> Result<ImageBytes, OutOfMemory>
        requires limits { HasLimits (image_of raw) }
        requires written { IsInRange (named_of raw) }
        requires bytes { bytes.items ≡ bytes_of Second (named_of raw) }
        ensures { IfOk result (λ image. image ≡ named_of raw) }
    {
        let places = places_of(alloc, &raw)?;
        let overhead = raw.overhead;
        let program = raw.program;
        let names = raw.names;
        Ok(ImageBytes {
            bytes,
            overhead,
            program,
            names,
            places,
        })
    }

    /// Its bytes, in version 2.
    pub fn bytes(&self) -> &[u8]
        ensures { result.now ≡ bytes_of Second self.now }
    {
        self.bytes.as_slice()
    }

    /// The name of its program.
    pub fn program(&self) -> &Name
        ensures { result.now ≡ self.now.program }
    {
        &self.program
    }

    /// The names of its parts.
    pub fn names(&self) -> &ImageNames
        ensures { result.now ≡ self.now.names }
    {
        &self.names
    }

    /// Conditions stand in the image by their monitors, and devices by their directions. The call
    /// does nothing.
    pub fn names_are_its(&self)
        ensures conditions { self.now.image.conditions ≡ map (λ c. c.mon) self.now.names.conditions }
        ensures devices { self.now.image.devices ≡ map (λ d. d.out) self.now.names.devices }
    {
        let _names = &self.names;
    }

    /// The ticks of one dispatch.
    pub fn overhead(&self) -> u16
        ensures { result ≡ self.now.image.over }
    {
        self.overhead
    }

    /// How many processes there are.
    pub fn processes(&self) -> u16
        ensures { result ≡ length self.now.image.processes }
    {
        self.places.processes.len() as u16
    }

    /// How many routines there are.
    pub fn routines(&self) -> u16
        ensures { result ≡ length self.now.image.routines }
    {
        self.places.routines.len() as u16
    }

    /// How many monitors there are.
    pub fn monitors(&self) -> u16
        ensures { result ≡ length self.now.image.monitors }
    {
        self.places.monitors.len() as u16
    }

    /// How many instructions there are.
    pub fn code_len(&self) -> u32
        ensures { result ≡ length self.now.image.code }
    {
        self.places.instructions
    }

    /// The instruction at an address of its code.
    pub fn instr(&self, at: u32) -> Instr
        requires { at < length self.now.image.code }
        ensures { slice_get self.now.image.code at ≡ Some result }
    {
        let bytes = self.bytes.as_slice();
        match read_instr(instr_bytes_at(bytes, self.places.code, at)) {
            Some(instr) => instr,
            None => unreachable!(),
        }
    }

    /// A process, by its number from 0.
    pub fn process(&self, number: u16) -> ProcessRef<'_>
        requires { number < length self.now.image.processes }
        ensures { slice_get self.now.image.processes number ≡ Some (process_in result) }
    {
        let bytes = self.bytes.as_slice();
        let places = self.places.processes.as_slice();
        process_at(bytes_from(bytes, places, number))
    }

    /// A routine, by its number from 0.
    pub fn routine(&self, number: u16) -> RoutineRef<'_>
        requires { number < length self.now.image.routines }
        ensures { slice_get self.now.image.routines number ≡ Some (routine_in result) }
    {
        let bytes = self.bytes.as_slice();
        let places = self.places.routines.as_slice();
        routine_at(bytes_from(bytes, places, number))
    }

    /// A monitor, by its number from 0.
    pub fn monitor(&self, number: u16) -> RawMonitor
        requires { number < length self.now.image.monitors }
        ensures { slice_get self.now.image.monitors number ≡ Some (monitor_of result) }
    {
        let bytes = self.bytes.as_slice();
        let places = self.places.monitors.as_slice();
        match monitor_at(bytes_from(bytes, places, number)) {
            Ok((monitor, _)) => monitor,
            Err(_) => unreachable!(),
        }
    }
}
